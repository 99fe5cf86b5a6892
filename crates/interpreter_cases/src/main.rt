// Makes the calls that the file `cases` lists and prints a line for each: a label and the answer.
// `cases/interpreter_cases.py` writes that file and the lines that are expected.
//
// A record is a header of 47 bytes, a label, the end of a table and tokens. The header has the kind of the call and the
// label's length in one byte each; the start in 18 (`stored_runs::start`); in two each the node words, the rule words, and
// how many bytes the table has in common with the one before it, at the start of both; five numbers of three bytes that
// tell how the tokens are stored (`stored_cases::stored`); then how many words are lent, in three, and for `m` what these
// hold before the call: a number in one and a node in two (`stored_runs::remembering::lend`). The table is the node words,
// then the rule words, two bytes each. A token word has four. The kinds:
//   r  run the table over the tokens; no words are lent. The run is made again with words to remember in, and ` differs`
//      is printed behind the answer where the second one is another, or leaves the words otherwise than it must
//   l  run it, and list the captures in the words lent
//   m  run it, and remember outcomes in the words lent
//   R, L, M  the same three by the reading of 2014
#![tactic(auto)]

use columns::{Reading, Start};
use interpreter::{Listed, Ran};
use slices::filled;
use stored_cases::{
    CASES, MEMORY_WORDS, MOST_RECORDS, NODE_WORDS, PART, RULE_WORDS, TOKEN_WORDS, byte, fill,
    label, load, pair, part, show_either, show_fours, show_one, stored, triple, zeros,
};
use stored_runs::remembering::{kept, lend, remember_stored};
use table::Refusal;

// What every lent word holds before a run that lists.
const MARKER: u32 = 4000000000;

// No more captures than these are printed.
const MOST_SHOWN: usize = 5000;

// The words that a run is lent where it is made again, and what they hold: what looks like failures of the start's first child.
const AGAIN: usize = 1200;

const AGAIN_CONTENTS: usize = 3;

fn main(rt: HostRuntime) {
    let mut cases = zeros::<u8, CASES>();
    let mut table = zeros::<u8, PART>();
    let mut text = zeros::<u8, PART>();
    let n = stored_cases::read(&rt, b"cases", &mut cases);
    records(part(&cases, 0, n), &mut table, &mut text);
}

// Goes through the records.
fn records(cases: &[u8], table: &mut [u8], text: &mut [u8]) {
    let mut at = 0;
    for _ in 0..MOST_RECORDS {
        if at >= cases.len() {
            return;
        }
        at = record(cases, at, table, text);
    }
}

// Makes the call of the record at an index. The answer is where the record ends.
fn record(cases: &[u8], at: usize, table: &mut [u8], text: &mut [u8]) -> usize {
    let header = part(cases, at, 47);
    let x = pair(header, 20) * 2;
    let y = pair(header, 22) * 2;
    let first = label(cases, at, header);
    let second = fill(cases, first, table, pair(header, 24), x + y);
    let end = stored(cases, second, part(header, 26, 15), text);
    call(
        header,
        part(table, 0, x),
        part(table, x, y),
        part(text, 0, triple(header, 38)),
    );
    io::write_all(1, b"\n");
    end
}

// Makes the call that a header tells of, over stored words, and prints its answer.
fn call(header: &[u8], nodes: &[u8], rules: &[u8], tokens: &[u8]) {
    let start = stored_runs::start(part(header, 2, 18));
    let lent = part(header, 41, 6);
    match header.first() {
        Some(b'r') => run(nodes, rules, tokens, start, Reading::By2017),
        Some(b'R') => run(nodes, rules, tokens, start, Reading::By2014),
        Some(b'l') => list(nodes, rules, tokens, start, Reading::By2017, lent),
        Some(b'L') => list(nodes, rules, tokens, start, Reading::By2014, lent),
        Some(b'm') => remember(nodes, rules, tokens, start, Reading::By2017, lent),
        Some(b'M') => remember(nodes, rules, tokens, start, Reading::By2014, lent),
        _ => {
            io::write_all(1, b"no such call");
        }
    }
}

// Makes a call that is lent no words, and again with words to remember in.
fn run(nodes: &[u8], rules: &[u8], tokens: &[u8], start: Start, reading: Reading) {
    let ran = stored_runs::run_stored(nodes, rules, tokens, start, reading);
    show_run(ran);
    let mut memory = zeros::<u32, TOKEN_WORDS>();
    let child = pair(nodes, start.node as usize * 8 + 2) as u32;
    again(
        nodes,
        rules,
        tokens,
        start,
        reading,
        ran,
        child,
        &mut memory[0..AGAIN],
    );
}

// Makes a call again with words to remember in, and prints ` differs` where it does not end as before or leaves the words
// otherwise than it must.
fn again(
    nodes: &[u8],
    rules: &[u8],
    tokens: &[u8],
    start: Start,
    reading: Reading,
    before: Result<Ran, Refusal>,
    node: u32,
    memory: &mut [u32],
) {
    lend(memory, AGAIN_CONTENTS, node);
    let ran = remember_stored(nodes, rules, tokens, start, reading, memory);
    if ran != before || !left(ran, memory, AGAIN_CONTENTS, node) {
        io::write_all(1, b" differs");
    }
}

// Makes a call that is lent words to remember in, as the end of a header tells.
fn remember(
    nodes: &[u8],
    rules: &[u8],
    tokens: &[u8],
    start: Start,
    reading: Reading,
    lent: &[u8],
) {
    let mut memory = zeros::<u32, MEMORY_WORDS>();
    let x = triple(lent, 0).min(MEMORY_WORDS);
    remember_in(
        nodes,
        rules,
        tokens,
        start,
        reading,
        byte(lent, 3),
        pair(lent, 4) as u32,
        &mut memory[0..x],
    );
}

// Makes a call in the words lent, and prints what it ended in and ` zeros` where these are 0 afterwards, or, where it is
// refused, ` kept` where they are as they were; else ` changed`.
fn remember_in(
    nodes: &[u8],
    rules: &[u8],
    tokens: &[u8],
    start: Start,
    reading: Reading,
    contents: usize,
    node: u32,
    memory: &mut [u32],
) {
    lend(memory, contents, node);
    let ran = remember_stored(nodes, rules, tokens, start, reading, memory);
    show_run(ran);
    let well = left(ran, memory, contents, node);
    if ran.is_err() {
        show_either(well, b" kept", b" changed");
    } else {
        show_either(well, b" zeros", b" changed");
    }
}

// Whether words to remember in are as they must be after a run: 0, or as they were where it is refused.
fn left(ran: Result<Ran, Refusal>, memory: &[u32], contents: usize, node: u32) -> bool {
    match ran {
        Ok(_) => filled(memory, 0, 0),
        Err(_) => kept(memory, contents, node),
    }
}

// Prints what a run ended in, for a success the place too.
fn show_run(ran: Result<Ran, Refusal>) {
    stored_runs::show(ran);
    if let Ok(Ran::Success(_, state)) = ran {
        show_one(b"", state.place as u64);
    }
}

// Makes a call that is lent words for its captures, as many as the end of a header tells.
fn list(nodes: &[u8], rules: &[u8], tokens: &[u8], start: Start, reading: Reading, lent: &[u8]) {
    let mut node_words = zeros::<u16, NODE_WORDS>();
    let mut rule_words = zeros::<u16, RULE_WORDS>();
    let mut token_words = zeros::<u32, TOKEN_WORDS>();
    let mut captures = zeros::<u32, TOKEN_WORDS>();
    let n = (nodes.len() / 2).min(NODE_WORDS);
    let r = (rules.len() / 2).min(RULE_WORDS);
    let t = (tokens.len() / 4).min(TOKEN_WORDS);
    let c = triple(lent, 0).min(TOKEN_WORDS);
    list_in(
        nodes,
        rules,
        tokens,
        start,
        reading,
        &mut node_words[0..n],
        &mut rule_words[0..r],
        &mut token_words[0..t],
        &mut captures[0..c],
    );
}

// Makes a call in the words lent for the table, for the tokens and for the captures.
fn list_in(
    nodes: &[u8],
    rules: &[u8],
    tokens: &[u8],
    start: Start,
    reading: Reading,
    first: &mut [u16],
    second: &mut [u16],
    words: &mut [u32],
    captures: &mut [u32],
) {
    load(nodes, first);
    load(rules, second);
    load(tokens, words);
    captures.fill(MARKER);
    show_list(first, second, words, start, reading, captures);
}

// Prints what a run that lists ended in, and the words that it was lent.
fn show_list(
    nodes: &[u16],
    rules: &[u16],
    tokens: &[u32],
    start: Start,
    reading: Reading,
    captures: &mut [u32],
) {
    match interpreter::list(nodes, rules, tokens, start, reading, captures) {
        Ok(Listed::Success(read, state, count)) => {
            show_run(Ok(Ran::Success(read, state)));
            show_one(b" | captures", count as u64);
            show_listed(captures, count);
        }
        Ok(Listed::Failure(farthest)) => {
            show_run(Ok(Ran::Failure(farthest)));
            show_listed(captures, 0);
        }
        Err(refusal) => {
            show_run(Err(refusal));
            show_kept(captures);
        }
    }
}

// Prints the words of n captures, a bar before each fourth, then how many others there are, and whether they are 0.
fn show_listed(words: &[u32], n: usize) {
    let end = (n.min(MOST_SHOWN) * 4).min(words.len());
    show_fours(&words[..end]);
    show_one(b" |", (words.len() - end) as u64);
    show_either(filled(words, end, 0), b" zeros", b" changed");
}

// Prints how many words there are, and whether they are still marked.
fn show_kept(words: &[u32]) {
    show_one(b" |", words.len() as u64);
    show_either(filled(words, 0, MARKER), b" kept", b" changed");
}
