// Runs the grammar of the file `shape` over tokens that are all alike and prints what the run ends in, or how many captures
// it lists, as deep calls need stack and no proof speaks of it. `cases/depth.py` writes the stored file and the line that is
// expected; `tools/stack.py` writes others and finds how much stack each needs.
//
// The file is words of two bytes, high byte first: the count of node words, the count of rule words, the count of tokens,
// the start node, the mode, whether the captures are listed (0 or 1) and whether the reading is that of 2014 (0 or 1); then
// the node words and the rule words. Every token is terminal 0 at column 0.
#![tactic(auto)]

use columns::{Interval, Reading, Start, Upper};
use interpreter::Listed;
use stored_cases::{NODE_WORDS, RULE_WORDS, TOKEN_WORDS, load, pair, part, zeros};

fn main(rt: HostRuntime) {
    let mut bytes = io::large_buffer();
    let n = stored_cases::read(&rt, b"shape", &mut bytes);
    call(part(&bytes, 0, n));
}

// Makes the run of a shape and prints the answer.
fn call(shape: &[u8]) {
    let tokens = [0u32; 16384];
    let x = pair(shape, 0) * 2;
    let y = pair(shape, 2) * 2;
    let z = pair(shape, 4).min(4096) * 4;
    let start = start_at(pair(shape, 6) as u16, pair(shape, 8) as u16);
    let reading = readings::reading(pair(shape, 12) != 0);
    let nodes = part(shape, 14, x);
    let rules = part(shape, 14 + x, y);
    if pair(shape, 10) == 0 {
        stored_runs::show(stored_runs::run(nodes, rules, &tokens[0..z], start, reading));
    } else {
        list(nodes, rules, &tokens[0..z], start, reading);
    }
    io::write_all(1, b"\n");
}

// Lists the captures of a stored table. There is room for one at each of 4,097 places.
fn list(nodes: &[u8], rules: &[u8], tokens: &[u32], start: Start, reading: Reading) {
    let mut node_words = zeros::<u16, NODE_WORDS>();
    let mut rule_words = zeros::<u16, RULE_WORDS>();
    let mut captures = zeros::<u32, TOKEN_WORDS>();
    let n = (nodes.len() / 2).min(NODE_WORDS);
    let r = (rules.len() / 2).min(RULE_WORDS);
    list_in(
        nodes,
        rules,
        tokens,
        start,
        reading,
        &mut node_words[0..n],
        &mut rule_words[0..r],
        &mut captures[0..16388],
    );
}

// Lists them in the words lent for the table and for the captures, and prints how many there are.
fn list_in(
    nodes: &[u8],
    rules: &[u8],
    tokens: &[u32],
    start: Start,
    reading: Reading,
    first: &mut [u16],
    second: &mut [u16],
    captures: &mut [u32],
) {
    load(nodes, first);
    load(rules, second);
    match interpreter::list(first, second, tokens, start, reading, captures) {
        Ok(Listed::Success(_, _, count)) => {
            stored_cases::show_one(b"captures", count as u64);
        }
        _ => {
            io::write_all(1, b"no list");
        }
    }
}

// A start at token 0, with the interval 0 without end and the flag clear.
fn start_at(node: u16, mode: u16) -> Start {
    let interval = Interval {
        lower: 0,
        upper: Upper::Endless,
    };
    Start {
        node,
        place: 0,
        interval,
        flag: false,
        mode,
    }
}
