// The walk of a grammar over tokens from a start by a reading, with the list of its captures: the numbers 3, 4, 5, 7, 11, 12
// and 16, then the outcome. A run and a run that lists are made of it.
#![tactic(auto)]

mod cycle;
mod remembering;
mod states;

ghost use Rattle.std.specs.Prelude.{◌≡◌, ◌≤◌};
ghost use Rattle.capture_list.specs.Put.{most_count};
ghost use Rattle.clauses.specs.RunAnswer.{run_answer};
ghost use Rattle.clauses.specs.Remembering.{memory_after};
ghost use Rattle.walk.specs.WalkAnswer.{ended, numbers, walk_answer, walk_after};
ghost use Rattle.walk.specs.InternalRemembering.{Remembering};
ghost use Rattle.walk.specs.InternalRun.{Admitted, Admits, Counted, WholeWalkFrom};

use capture_list::{Counts, MOST, clear};
use columns::{Outcome, Reading, Start, State};
use cycle::{Input, expression};
use run_limits::{reading_wrong, start_wrong, tokens_wrong};
use table::Refusal;

// What a walk from a start gives: its outcome, and the number of captures that it lists, 0 where it failed.
#[derive(Clone, Copy, Debug, PartialEq, Eq)]
pub struct Walk {
    pub outcome: Outcome,
    pub captures: usize,
}

// Walks a grammar from a start, and remembers outcomes in the lent words, which are 0 afterwards. Nothing is listed.
pub fn run(
    nodes: &[u16],
    rules: &[u16],
    tokens: &[u32],
    start: Start,
    reading: Reading,
    memory: &mut [u32],
) -> Result<Outcome, Refusal>
    ensures result_value { ended result ≡ run_answer reading nodes.now rules.now tokens.now start }
    ensures memory_after { memory.new
        ≡ memory_after reading nodes.now rules.now tokens.now start memory.old }
{
    let input = Input {
        nodes,
        rules,
        tokens,
        reading,
    };
    admitted(&input, start)?;
    let mut none = [0u32; 1];
    clear(memory, 0); // whatever it held
    let walk = walk_once(&input, &mut none, memory, start, MOST);
    clear(memory, 0); // whatever was remembered
    Ok(walk.outcome)
}

// Walks a grammar from a start, and remembers in the same way: first in a list without a place, which counts the captures.
// Where the lent list has a place for each, they are listed there, four words each, with zeros behind them; otherwise, and
// where the walk is refused, it is left as it is.
pub fn list(
    nodes: &[u16],
    rules: &[u16],
    tokens: &[u32],
    start: Start,
    reading: Reading,
    list: &mut [u32],
    memory: &mut [u32],
) -> Result<Walk, Refusal>
    ensures result_value { numbers result ≡ walk_answer reading nodes.now rules.now tokens.now start }
    ensures list_after { list.new
        ≡ walk_after reading nodes.now rules.now tokens.now start list.old }
    ensures memory_after { memory.new
        ≡ memory_after reading nodes.now rules.now tokens.now start memory.old }
{
    let input = Input {
        nodes,
        rules,
        tokens,
        reading,
    };
    admitted(&input, start)?;
    let mut none = [0u32; 1];
    clear(memory, 0);
    let walk = walk_once(&input, &mut none, memory, start, 0);
    let count = walk.captures;
    write_list(&input, start, count, list, memory);
    clear(memory, 0);
    Ok(walk)
}

// The same, with nothing lent to remember in.
pub fn from_start(
    nodes: &[u16],
    rules: &[u16],
    tokens: &[u32],
    start: Start,
    reading: Reading,
    list: &mut [u32],
) -> Result<Walk, Refusal>
    ensures value { numbers result ≡ walk_answer reading nodes.now rules.now tokens.now start }
    ensures list_after { list.new
        ≡ walk_after reading nodes.now rules.now tokens.now start list.old }
{
    let mut none = [0u32; 1];
    crate::list(nodes, rules, tokens, start, reading, list, &mut none)
}

// Whether a run may begin: the first of 3, 4, 5, 7, 11, 12 and 16 that fails, or none.
fn admitted(input: &Input, start: Start) -> Result<(), Refusal>
    ensures { Admits input.now.reading input.now.nodes.now input.now.rules.now input.now.tokens.now start result }
{
    well_formed::check(input.nodes, input.rules)?;
    if tokens_wrong(input.tokens) {
        return Err(Refusal::Tokens);
    }
    if start_wrong(input.nodes, input.tokens, start) {
        return Err(Refusal::Start);
    }
    if reading_wrong(input.nodes, start, input.reading) {
        return Err(Refusal::Reading);
    }
    Ok(())
}

// Writes the list of so many captures where they fit: by another walk, unless there are none.
fn write_list(input: &Input, start: Start, count: usize, list: &mut [u32], memory: &mut [u32])
    requires admitted { Admitted input.now.reading input.now.nodes.now input.now.rules.now input.now.tokens.now start }
    requires counted { Counted input.now.reading input.now.nodes.now input.now.rules.now input.now.tokens.now start count }
    requires remembering { Remembering input.now.reading input.now.nodes.now input.now.rules.now input.now.tokens.now memory.old }
    ensures { list.new
        ≡ walk_after input.now.reading input.now.nodes.now input.now.rules.now input.now.tokens.now start list.old }
{
    if list.len() / 4 < count {
        return;
    }
    if count == 0 {
        clear(list, 0);
        return;
    }
    walk_once(input, list, memory, start, 0);
    clear(list, count * 4);
}

// A whole walk from a start that is admitted, with a list that is empty; with a count that has stopped nothing is listed.
fn walk_once(
    input: &Input,
    list: &mut [u32],
    memory: &mut [u32],
    start: Start,
    counted: usize,
) -> Walk
    requires admitted { Admitted input.now.reading input.now.nodes.now input.now.rules.now input.now.tokens.now start }
    requires counted_le_most_count { counted ≤ most_count }
    requires remembering { Remembering input.now.reading input.now.nodes.now input.now.rules.now input.now.tokens.now memory.old }
    ensures whole_walk { WholeWalkFrom input.now.reading input.now.nodes.now input.now.rules.now input.now.tokens.now start counted list.old result
        list.new }
    ensures remembering_2 { Remembering input.now.reading input.now.nodes.now input.now.rules.now input.now.tokens.now memory.new }
{
    let s = State {
        place: start.place,
        farthest: start.place,
        interval: start.interval,
        flag: start.flag,
    };
    let mut counts = Counts {
        around: 0,
        so_far: counted,
    };
    let x = expression(input, list, memory, start.mode, start.node, &mut counts, s);
    match x {
        Outcome::Failure(farthest) => Walk {
            outcome: Outcome::Failure(farthest),
            captures: 0,
        },
        Outcome::Success(u) => Walk {
            outcome: Outcome::Success(u),
            captures: counts.so_far,
        },
    }
}
