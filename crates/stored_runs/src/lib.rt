// From stored bytes to runs: the start that a header tells of, the run of a stored table, and what it ended in, printed;
// and the program's line of a grammar file and a report.
#![tactic(auto)]

pub mod remembering;

ghost use Rattle.std.specs.Prelude.{◌≡◌, length};
ghost use Rattle.stored_runs.specs.Runs.{start_of, upper_of, flag_of, Answers, StoredAnswers, shown_count, shown_upper};
ghost use Rattle.stored_cases.specs.Numbers.{first_pairs, first_quads, quads};
ghost use Rattle.line.specs.Line.{line_count};

use columns::{Interval, Reading, Start, State, Upper};
use interpreter::Ran;
use refusal_numbers::{Refuses, Told};
use stored_cases::{NODE_WORDS, RULE_WORDS, TOKEN_WORDS, byte, load, pair, quad, show_one, zeros};
use table::Refusal;

// The start of 18 bytes: the flag (0 is clear) and whether the upper end is a column (0 is without end) in one byte each;
// the node and the mode in two each; the place, the lower end and the upper end in four each.
#[tactic(auto, unfolding(crate::specs::Runs::start_of))]
pub fn start(bytes: &[u8]) -> Start
    ensures { result ≡ start_of bytes.now }
{
    let node = pair(bytes, 2) as u16;
    let mode = pair(bytes, 4) as u16;
    let place = quad(bytes, 6);
    let lower = quad(bytes, 10);
    let upper = upper_end(byte(bytes, 1), quad(bytes, 14));
    let flag = is_set(byte(bytes, 0));
    let interval = Interval { lower, upper };
    Start {
        node,
        place,
        interval,
        flag,
        mode,
    }
}

// The upper end, a column unless the number is 0.
fn upper_end(bounded: usize, column: u32) -> Upper
    ensures { result ≡ upper_of bounded column }
{
    if bounded == 0 {
        Upper::Endless
    } else {
        Upper::At(column)
    }
}

// The flag, set unless the number is 0.
fn is_set(flag: usize) -> bool
    ensures { result ≡ flag_of flag }
{
    flag != 0
}

// Runs a stored table, of at most 2,100 node words and 200 rule words of two bytes.
pub fn run(
    nodes: &[u8],
    rules: &[u8],
    tokens: &[u32],
    start: Start,
    reading: Reading,
) -> Result<Ran, Refusal>
    ensures { StoredAnswers reading nodes.now rules.now tokens.now start result }
{
    let mut node_words = zeros::<u16, NODE_WORDS>();
    let mut rule_words = zeros::<u16, RULE_WORDS>();
    let x = (nodes.len() / 2).min(NODE_WORDS);
    let y = (rules.len() / 2).min(RULE_WORDS);
    run_in(
        nodes,
        rules,
        tokens,
        start,
        reading,
        &mut node_words[0..x],
        &mut rule_words[0..y],
    )
}

// Runs a stored table in the words lent for it.
fn run_in(
    nodes: &[u8],
    rules: &[u8],
    tokens: &[u32],
    start: Start,
    reading: Reading,
    first: &mut [u16],
    second: &mut [u16],
) -> Result<Ran, Refusal>
    ensures { Answers reading (first_pairs (length first.old) nodes.now)
        (first_pairs (length second.old) rules.now) tokens.now start result }
{
    load(nodes, first);
    load(rules, second);
    interpreter::run(first, second, tokens, start, reading)
}

// The same over stored tokens, of at most 16,500 words of four bytes.
pub fn run_stored(
    nodes: &[u8],
    rules: &[u8],
    tokens: &[u8],
    start: Start,
    reading: Reading,
) -> Result<Ran, Refusal>
    ensures { StoredAnswers reading nodes.now rules.now (quads 16500 tokens.now) start result }
{
    let mut token_words = zeros::<u32, TOKEN_WORDS>();
    let z = (tokens.len() / 4).min(TOKEN_WORDS);
    run_over(nodes, rules, tokens, start, reading, &mut token_words[0..z])
}

// Runs a stored table over stored tokens in the words lent for them.
fn run_over(
    nodes: &[u8],
    rules: &[u8],
    tokens: &[u8],
    start: Start,
    reading: Reading,
    words: &mut [u32],
) -> Result<Ran, Refusal>
    ensures { StoredAnswers reading nodes.now rules.now
        (first_quads (length words.old) tokens.now) start result }
{
    load(tokens, words);
    run(nodes, rules, words, start, reading)
}

// Prints `success` with the tokens read, the interval's ends, the flag and the farthest place, `failure` with the farthest
// place, or `refused` with the number, and for 7 the node. The answer is how many numbers that were.
pub fn show<E: Refuses>(ran: Result<Ran, E>) -> usize
    ensures { result ≡ shown_count ran }
{
    match ran {
        Ok(Ran::Success(read, state)) => show_success(read, state),
        Ok(Ran::Failure(farthest)) => show_one(b"failure", farthest as u64),
        Err(refusal) => match refusal.told() {
            Told::Number(number) => show_one(b"refused", number as u64),
            Told::IllFormed(node) => show_one(b"refused 7", node as u64),
        },
    }
}

// Prints `success` with the tokens read and the state.
fn show_success(read: u32, state: State) -> usize
    ensures { result ≡ shown_upper state.interval.upper }
{
    let interval = state.interval;
    let upper = interval.upper;
    let numbers = [read as u64, interval.lower as u64];
    stored_cases::show(b"success", &numbers);
    let count = show_upper(upper);
    stored_cases::show_either(state.flag, b" set", b" clear");
    show_one(b"", state.farthest as u64);
    count
}

// Prints an upper end, `inf` where there is none. The answer is how many numbers a success has.
fn show_upper(upper: Upper) -> usize
    ensures { result ≡ shown_upper upper }
{
    match upper {
        Upper::At(column) => {
            show_one(b"", column as u64);
            4
        }
        Upper::Endless => {
            io::write_all(1, b" inf");
            3
        }
    }
}

// Prints the program's line of a grammar file and a report. The answer is how many bytes it has.
pub fn show_line(file: &[u8], report: &[u8]) -> usize
    ensures { result ≡ line_count file.now report.now 64 }
{
    let mut out = [0u8; 64];
    let count = line::write(file, report, &mut out);
    io::write_all(1, stored_cases::part(&out, 0, count));
    count
}
