// Makes the calls that the file `cases` lists and prints a line for each: a label and the answer.
// `cases/grammar_file_cases.py` writes that file and the lines that are expected.
//
// A record is a header of twelve bytes, a label and the end of a payload. The header has the kind of the
// call, the label's length, two numbers x and y of two bytes each, how many bytes the payload has in
// common with the one before it, at the start of both, and its length, in three bytes each. The kinds:
//   r  read the payload, x node words and y rule words lent; R prints the words too
//   k  keyword x of the payload; K counts x down from the greatest number
//   n  the name of rule x of the payload; N likewise
//   t  check the table of the payload's x node words and y rule words
#![tactic(auto)]

ghost use Rattle.std.specs.Prelude.{◌≡◌};
ghost use Rattle.grammar_file_cases.specs.Written.{nodes_written, rules_written};

use grammar_file::Contents;
use slices::{filled, front};
use stored_cases::{
    CASES, MOST_RECORDS, NODE_WORDS, PART, RULE_WORDS, label, load, pair, part, show, show_each,
    show_one, triple, zeros,
};
use table::Refusal;

// What every lent word holds before a read.
const MARKER: u16 = 60000;

fn main(rt: HostRuntime) {
    let mut cases = zeros::<u8, CASES>();
    let mut bytes = zeros::<u8, PART>();
    let n = stored_cases::read(&rt, b"cases", &mut cases);
    records(part(&cases, 0, n), &mut bytes);
}

// Goes through the records.
fn records(cases: &[u8], bytes: &mut [u8]) {
    let mut at = 0;
    for _ in 0..MOST_RECORDS {
        if at >= cases.len() {
            return;
        }
        at = record(cases, at, bytes);
    }
}

// Makes the call of the record at an index. The answer is where the record ends.
fn record(cases: &[u8], at: usize, bytes: &mut [u8]) -> usize {
    let header = part(cases, at, 12);
    let size = triple(header, 9);
    let first = label(cases, at, header);
    let end = stored_cases::fill(cases, first, bytes, triple(header, 6), size);
    call(header, part(bytes, 0, size));
    io::write_all(1, b"\n");
    end
}

// Makes the call that a header tells of and prints its answer.
fn call(header: &[u8], payload: &[u8]) {
    let x = pair(header, 2);
    match header.first() {
        Some(b'k') => show_part(grammar_file::keyword(payload, x)),
        Some(b'K') => show_part(grammar_file::keyword(payload, usize::MAX - x)),
        Some(b'n') => show_part(grammar_file::rule_name(payload, x)),
        Some(b'N') => show_part(grammar_file::rule_name(payload, usize::MAX - x)),
        Some(b't') => lend(payload, x, pair(header, 4)),
        Some(b'R') => lend_read(payload, x, pair(header, 4), true),
        Some(b'r') => lend_read(payload, x, pair(header, 4), false),
        _ => {
            io::write_all(1, b"no such call");
        }
    }
}

// Prints a part of a file between quotes, and its length.
fn show_part(found: &[u8]) {
    io::write_all(1, b"\"");
    io::write_all(1, found);
    show_one(b"\"", found.len() as u64);
}

// Lends x node words and y rule words for a table.
fn lend(payload: &[u8], x: usize, y: usize) {
    let mut nodes = zeros::<u16, NODE_WORDS>();
    let mut rules = zeros::<u16, RULE_WORDS>();
    let n = x.min(NODE_WORDS);
    let r = y.min(RULE_WORDS);
    show_table(payload, &mut nodes[0..n], &mut rules[0..r]);
}

// Prints what the check of a table answers.
fn show_table(payload: &[u8], nodes: &mut [u16], rules: &mut [u16]) {
    load(payload, nodes);
    load(part(payload, nodes.len() * 2, payload.len()), rules);
    match table::check(nodes, rules) {
        Ok(()) => {
            io::write_all(1, b"passes");
        }
        Err(refusal) => show_refused(refusal),
    }
}

// Lends x node words and y rule words for a read, then checks the same file.
fn lend_read(file: &[u8], x: usize, y: usize, words: bool) {
    let mut nodes = zeros::<u16, NODE_WORDS>();
    let mut rules = zeros::<u16, RULE_WORDS>();
    let n = x.min(NODE_WORDS);
    let r = y.min(RULE_WORDS);
    show_read(file, &mut nodes[0..n], &mut rules[0..r], words);
    show_answer(grammar_file::check(file));
}

// Prints what a read answers, the words that it wrote where they are asked for, and whether it left the others alone.
fn show_read(file: &[u8], nodes: &mut [u16], rules: &mut [u16], words: bool) {
    nodes.fill(MARKER);
    rules.fill(MARKER);
    let answer = grammar_file::read(file, nodes, rules);
    show_answer(answer);
    show_lent(
        nodes,
        rules,
        nodes_written(answer),
        rules_written(answer),
        words,
    );
}

// Prints the first words where they are asked for, and whether the others are still marked.
fn show_lent(nodes: &[u16], rules: &[u16], n: usize, r: usize, words: bool) {
    if words {
        show_first(b" | nodes", nodes, n);
        show_first(b" | rules", rules, r);
    }
    let kept = filled(nodes, n, MARKER) && filled(rules, r, MARKER);
    stored_cases::show_either(kept, b" | kept | check ", b" | changed | check ");
}

// Prints a text and the first n words, or all where there are fewer.
fn show_first(text: &[u8], words: &[u16], n: usize) {
    io::write_all(1, text);
    show_each(front(words, n));
}

// How many node words a read wrote.
fn nodes_written(answer: Result<Contents, Refusal>) -> usize
    ensures { result ≡ nodes_written answer }
{
    match answer {
        Ok(contents) => contents.nodes.min(512) * 4,
        Err(_) => 0,
    }
}

// How many rule words it wrote.
fn rules_written(answer: Result<Contents, Refusal>) -> usize
    ensures { result ≡ rules_written answer }
{
    match answer {
        Ok(contents) => contents.rules,
        Err(_) => 0,
    }
}

// Prints `read` with the counts, the start node and the start mode, or `refused` with the number.
fn show_answer(answer: Result<Contents, Refusal>) {
    match answer {
        Ok(contents) => {
            let numbers = [
                contents.nodes as u64,
                contents.rules as u64,
                contents.keywords as u64,
                contents.start as u64,
                contents.mode as u64,
            ];
            show(b"read", &numbers);
        }
        Err(refusal) => show_refused(refusal),
    }
}

// Prints `refused` with the number.
fn show_refused(refusal: Refusal) {
    show_one(b"refused", refusal.number() as u64);
}
