// Makes the calls that the file `cases` lists and prints a line for each: a label and the answer.
// `cases/well_formed_cases.py` writes that file and the lines that are expected.
//
// A record is a header of ten bytes, a label and the end of a payload. The header has the kind of the
// call and the label's length in one byte each, and four numbers of two bytes each: how often the call
// is made again, the node words, the rule words, and how many bytes the payload has in common with the
// one before it, at the start of both. The payload is the node words, then the rule words. The kinds:
//   c  check the table
#![tactic(auto)]

ghost use Rattle.std.specs.Prelude.{◌≡◌, ◌||◌, eqb, length};
ghost use Rattle.well_formed.specs.Check.{check_answer, numbers};
ghost use Rattle.stored_cases.specs.Numbers.{first_pairs, pairs};
ghost use Rattle.well_formed_cases.specs.Repeats.{number_of, stored_number};

use stored_cases::{
    CASES, MOST_RECORDS, NODE_WORDS, PART, RULE_WORDS, byte, label, load, pair, part, show_one,
    zeros,
};
use table::Refusal;

// The kinds of calls.
const CHECK: usize = b'c' as usize;

fn main(rt: HostRuntime) {
    let mut cases = zeros::<u8, CASES>();
    let mut bytes = zeros::<u8, PART>();
    let n = stored_cases::read(&rt, b"cases", &mut cases);
    records(part(&cases, 0, n), &mut bytes);
}

// Goes through the records.
fn records(cases: &[u8], bytes: &mut [u8]) {
    let mut at = 0;
    for _ in 0..MOST_RECORDS {
        if at >= cases.len() {
            return;
        }
        at = record(cases, at, bytes);
    }
}

// Makes the call of the record at an index. The answer is where the record ends.
fn record(cases: &[u8], at: usize, bytes: &mut [u8]) -> usize {
    let header = part(cases, at, 10);
    let x = pair(header, 4) * 2;
    let y = pair(header, 6) * 2;
    let first = label(cases, at, header);
    let end = stored_cases::fill(cases, first, bytes, pair(header, 8), x + y);
    call(header, part(bytes, 0, x), part(bytes, x, y));
    io::write_all(1, b"\n");
    end
}

// Makes the call that a header tells of and prints its answer.
fn call(header: &[u8], nodes: &[u8], rules: &[u8]) {
    match byte(header, 0) {
        CHECK => check_again(nodes, rules, pair(header, 2)),
        _ => {
            io::write_all(1, b"no such call");
        }
    }
}

// Checks the table of stored node words and rule words, then as often again, and prints the answer.
fn check_again(nodes: &[u8], rules: &[u8], again: usize) {
    let first = answer(nodes, rules);
    if repeats(nodes, rules, again, number(first)) {
        show_answer(first);
    } else {
        io::write_all(1, b"differs");
    }
}

// The answer for a stored table, of at most 2,100 node words and 200 rule words. They are loaded anew each time.
fn answer(nodes: &[u8], rules: &[u8]) -> Result<(), Refusal>
    ensures { numbers result ≡ check_answer (pairs 2100 nodes.now) (pairs 200 rules.now) }
{
    let mut node_words = zeros::<u16, NODE_WORDS>();
    let mut rule_words = zeros::<u16, RULE_WORDS>();
    let x = (nodes.len() / 2).min(NODE_WORDS);
    let y = (rules.len() / 2).min(RULE_WORDS);
    check(nodes, rules, &mut node_words[0..x], &mut rule_words[0..y])
}

// Loads the words of a table and checks it.
fn check(nodes: &[u8], rules: &[u8], first: &mut [u16], second: &mut [u16]) -> Result<(), Refusal>
    ensures { numbers result
        ≡ check_answer (first_pairs (length first.old) nodes.now)
        (first_pairs (length second.old) rules.now) }
{
    load(nodes, first);
    load(rules, second);
    well_formed::check(first, second)
}

// Makes the call as often again, and answers whether each time the answer has the same number.
fn repeats(nodes: &[u8], rules: &[u8], again: usize, expected: u32) -> bool
    ensures { result ≡ (eqb again 0 || eqb (stored_number nodes.now rules.now) expected) }
{
    for i in 0..again {
        if number(answer(nodes, rules)) != expected {
            return false;
        }
    }
    true
}

// A number that tells the answers apart.
fn number(answer: Result<(), Refusal>) -> u32
    ensures { result ≡ number_of (numbers answer) }
{
    match answer {
        Ok(()) => 0,
        Err(Refusal::IllFormed(node)) => 1000 + node as u32,
        Err(refusal) => 1 + refusal.number() as u32,
    }
}

// Prints `passes`, or `refused` with the number, and for 7 the node.
fn show_answer(answer: Result<(), Refusal>) {
    match answer {
        Ok(()) => {
            io::write_all(1, b"passes");
        }
        Err(Refusal::IllFormed(node)) => {
            show_one(b"refused 7", node as u64);
        }
        Err(refusal) => {
            show_one(b"refused", refusal.number() as u64);
        }
    }
}
