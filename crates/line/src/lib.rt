// From the bytes of a grammar file and a report: the line that the program `reader` prints, and what `entries` prints its
// lines from.
#![tactic(auto)]

ghost use Rattle.std.specs.Prelude.{◌≡◌, length};
ghost use Rattle.interpreter.specs.Numbers.{numbers, list_numbers};
ghost use Rattle.line.specs.Line.{start_at, line_answer, line_count, line_after};
ghost use Rattle.line.specs.Entries.{entries_answer, end_answer, capture_count, token_count, tokens_after, captures_after};
ghost use Rattle.line.specs.Entries.{Placed, capture_at};
ghost use Rattle.line.specs.InternalParts.{PartsGive, ran_of};

use answer_line::ROOM;
use columns::{Capture, Interval, Reading, Start, Upper};
use interpreter::{Listed, Ran};
use table::Refusal;

// What a run that lists answered, with the numbers of tokens and of captures that stand in the lent words.
#[derive(Clone, Copy)]
pub struct Entries {
    pub answer: Result<Ran, Refusal>,
    pub tokens: usize,
    pub captures: usize,
}

// What the parts before a run give: the counts of the table, its rules and the tokens, and the start.
#[derive(Clone, Copy)]
struct Ready {
    nodes: usize,
    rules: usize,
    tokens: usize,
    node: u16,
    mode: u16,
}

// Writes the line, and says how many bytes it has. A slice of fewer than 64 bytes is left as it is, and the answer is 0.
#[tactic(auto, using(refusal_numbers::proofs::ToldLaws::answers_as), unfolding(crate::specs::Line::line_count, crate::specs::Line::line_after, answer_line::specs::AnswerLine::written_count, answer_line::specs::AnswerLine::written_after))]
pub fn write(file: &[u8], report: &[u8], out: &mut [u8]) -> usize
    ensures value { result ≡ line_count file.now report.now (length out.old) }
    ensures out_after { out.new ≡ line_after file.now report.now out.old }
{
    if out.len() < ROOM {
        return 0;
    }
    answer_line::write(answer(file, report), out)
}

// Lists the captures of the file's start: the report's tokens and the captures, four words each. The tokens are written
// where 1 to 10 pass, the captures where nothing refuses.
pub fn list(file: &[u8], report: &[u8], tokens: &mut [u32], captures: &mut [u32]) -> Entries
    ensures answer_value { numbers 0 result.answer
        ≡ end_answer
        (entries_answer file.now report.now (length tokens.old)
        (length captures.old)) }
    ensures tokens_value { result.tokens ≡ token_count file.now report.now (length tokens.old) }
    ensures captures_value { result.captures
        ≡ capture_count
        (entries_answer file.now report.now (length tokens.old)
        (length captures.old)) }
    ensures tokens_after { tokens.new ≡ tokens_after file.now report.now tokens.old }
    ensures captures_after { captures.new
        ≡ captures_after file.now report.now (length tokens.old)
        captures.old }
    ensures placed { Placed result.answer }
{
    let mut nodes = [0u16; 2048];
    let mut rules = [0u16; 128];
    match prepare(file, report, &mut nodes, &mut rules, tokens) {
        Ok(ready) => {
            let listed = interpreter::list(
                &nodes[..ready.nodes * 4],
                &rules[..ready.rules],
                &tokens[..ready.tokens * 4],
                start_at(ready.node, ready.mode),
                Reading::By2017,
                captures,
            );
            counted(listed, ready.tokens)
        }
        Err(refusal) => counted(Err(refusal), 0),
    }
}

// The capture at a place of a list; zeros where there is no such place.
#[tactic(auto, unfolding(crate::specs::Entries::capture_at))]
pub fn capture_at(captures: &[u32], n: usize) -> Capture
    ensures { result ≡ capture_at captures.now n }
{
    match captures.get(n.saturating_mul(4)..) {
        Some([rule, first, after, around, ..]) => Capture {
            rule: *rule,
            first: *first,
            after: *after,
            around: *around,
        },
        _ => Capture {
            rule: 0,
            first: 0,
            after: 0,
            around: 0,
        },
    }
}

// What the four parts answer. The run remembers outcomes, in 65,536 words. What it needs is lent from fixed arrays: no heap
// is a rule of this project.
fn answer(file: &[u8], report: &[u8]) -> Result<Ran, Refusal>
    ensures { numbers 0 result ≡ line_answer file.now report.now }
{
    let mut nodes = [0u16; 2048];
    let mut rules = [0u16; 128];
    let mut tokens = [0u32; 16384];
    let mut memory = [0u32; 65536];
    let ready = prepare(file, report, &mut nodes, &mut rules, &mut tokens)?;
    interpreter::remember(
        &nodes[..ready.nodes * 4],
        &rules[..ready.rules],
        &tokens[..ready.tokens * 4],
        start_at(ready.node, ready.mode),
        Reading::By2017,
        &mut memory,
    )
}

// The file reader, the check and the scanner: the table, the rules and the tokens of a run.
fn prepare(
    file: &[u8],
    report: &[u8],
    nodes: &mut [u16],
    rules: &mut [u16],
    tokens: &mut [u32],
) -> Result<Ready, Refusal>
    requires { (length nodes.old ≡ 2048) × (length rules.old ≡ 128) }
    ensures { PartsGive file.now report.now tokens.old result nodes.new
        rules.new tokens.new }
{
    let read = grammar_file::read(file, nodes, rules)?;
    well_formed::check(&nodes[..read.nodes * 4], &rules[..read.rules])?;
    let count = token_words::scan(file, report, tokens)?;
    Ok(Ready {
        nodes: read.nodes,
        rules: read.rules,
        tokens: count,
        node: read.start,
        mode: read.mode,
    })
}

// The file's start: from token 0, interval 0 without end, flag clear.
fn start_at(node: u16, mode: u16) -> Start
    ensures { result ≡ start_at node mode }
{
    let interval = Interval {
        lower: 0,
        upper: Upper::Endless,
    };
    Start {
        node,
        place: 0,
        interval,
        flag: false,
        mode,
    }
}

// What a run that lists answered, over so many tokens.
fn counted(x: Result<Listed, Refusal>, tokens: usize) -> Entries
    ensures { (result.answer ≡ ran_of x) × (result.tokens ≡ tokens) × (result.captures ≡ capture_count (list_numbers 0 x)) }
{
    match x {
        Ok(Listed::Success(read, s, captures)) => Entries {
            answer: Ok(Ran::Success(read, s)),
            tokens,
            captures,
        },
        Ok(Listed::Failure(farthest)) => Entries {
            answer: Ok(Ran::Failure(farthest)),
            tokens,
            captures: 0,
        },
        Err(refusal) => Entries {
            answer: Err(refusal),
            tokens,
            captures: 0,
        },
    }
}
