// The interpreter: the outcome of a grammar on tokens from a start by a reading (numbers 3, 4, 5, 7, 11, 12 and 16), the same
// with words lent to remember outcomes in, and the list of its captures (13).
#![tactic(auto)]

ghost use Rattle.std.specs.Prelude.{◌≡◌, length};
ghost use Rattle.clauses.specs.RunAnswer.{run_answer};
ghost use Rattle.clauses.specs.Remembering.{memory_after};
ghost use Rattle.clauses.specs.ListAnswer.{list_answer, list_after};
ghost use Rattle.interpreter.specs.Numbers.{numbers, Derived, list_numbers, ListDerived};

use columns::{Outcome, Reading, Start, State};
use table::Refusal;

// What a run ends in: success with the number of tokens read and the state, failure with the farthest place.
#[derive(Clone, Copy, Debug, PartialEq, Eq)]
pub enum Ran {
    Success(u32, State),
    Failure(u32),
}

// What a run that lists ends in: the same, a success with the number of its captures.
#[derive(Clone, Copy, Debug, PartialEq, Eq)]
pub enum Listed {
    Success(u32, State, usize),
    Failure(u32),
}

// The node words, the rules and the tokens are parameters of their own, as C lends them.

// Runs a grammar on tokens from a start by a reading. It writes nothing.
pub fn run(
    nodes: &[u16],
    rules: &[u16],
    tokens: &[u32],
    start: Start,
    reading: Reading,
) -> Result<Ran, Refusal>
    ensures result_value { numbers start.place result
        ≡ run_answer reading nodes.now rules.now tokens.now start }
    ensures derived { Derived reading nodes.now rules.now tokens.now start result }
{
    let mut none = [0u32; 1];
    remember(nodes, rules, tokens, start, reading, &mut none)
}

// Runs a grammar in the same way, and remembers outcomes in the lent words, which are 0 afterwards. A refused call leaves them
// as they were.
#[tactic(auto, using(crate::proofs::RunLaws::run_failed, crate::proofs::RunLaws::run_succeeded, crate::proofs::RunLaws::run_onward))]
pub fn remember(
    nodes: &[u16],
    rules: &[u16],
    tokens: &[u32],
    start: Start,
    reading: Reading,
    memory: &mut [u32],
) -> Result<Ran, Refusal>
    ensures result_value { numbers start.place result
        ≡ run_answer reading nodes.now rules.now tokens.now start }
    ensures memory_after { memory.new
        ≡ memory_after reading nodes.now rules.now tokens.now start memory.old }
    ensures derived { Derived reading nodes.now rules.now tokens.now start result }
{
    let outcome = walk::run(nodes, rules, tokens, start, reading, memory)?;
    match outcome {
        Outcome::Failure(farthest) => Ok(Ran::Failure(farthest)),
        Outcome::Success(u) => {
            let read = u.place - start.place;
            Ok(Ran::Success(read, u))
        }
    }
}

// Runs a grammar and lists its captures in the lent words, four words each, with zeros behind them. A refused call writes
// nothing. What it remembers stands in words of its own, since 13 refuses a call that has run.
#[tactic(auto, using(crate::proofs::RunLaws::list_leaves, crate::proofs::RunLaws::list_refused, crate::proofs::RunLaws::list_short, crate::proofs::RunLaws::list_failed, crate::proofs::RunLaws::list_onward, crate::proofs::RunLaws::list_succeeded))]
pub fn list(
    nodes: &[u16],
    rules: &[u16],
    tokens: &[u32],
    start: Start,
    reading: Reading,
    captures: &mut [u32],
) -> Result<Listed, Refusal>
    ensures result_value { list_numbers start.place result
        ≡ list_answer reading nodes.now rules.now tokens.now start
        (length captures.old) }
    ensures captures_after { captures.new
        ≡ list_after reading nodes.now rules.now tokens.now start captures.old }
    ensures list_derived { ListDerived reading nodes.now rules.now tokens.now start result captures.new }
{
    let mut memory = [0u32; 65536]; // a fixed array: there is no heap here
    let whole = walk::list(nodes, rules, tokens, start, reading, captures, &mut memory)?;
    match whole.outcome {
        Outcome::Failure(farthest) => Ok(Listed::Failure(farthest)),
        Outcome::Success(u) => {
            if captures.len() / 4 < whole.captures {
                return Err(Refusal::CaptureRoom);
            }
            let read = u.place - start.place;
            Ok(Listed::Success(read, u, whole.captures))
        }
    }
}
