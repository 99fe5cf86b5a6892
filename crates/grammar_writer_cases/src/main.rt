// Makes the calls that the file `cases` lists and prints a line for each: a label and the answer.
// `cases/grammar_writer_cases.py` writes that file and the lines that are expected.
//
// A record is a header of 43 bytes, a label, a lending file and the words of a table. The header has the kind of the call
// and the label's length in one byte each; the start node and the mode in two each; how many bytes are lent, in three; how
// many node words and rule words there are, in two each; and ten numbers of three bytes each: five that tell how the
// lending file is stored (`stored_cases::stored`), then the words. A word has two bytes, and the rules' are behind the
// nodes'. The kinds:
//   w  write the table and the start with the lending file, and print a sum of the bytes written
//   W  the same, and print the bytes
//   a  read the lending file and write what was read, with itself lending
#![tactic(auto)]

use slices::filled;
use stored_cases::{
    CASES, MOST_RECORDS, NODE_WORDS, PART, RULE_WORDS, label, load, pair, part, show_either,
    show_one, stored, triple, zeros,
};
use table::Refusal;

// What every lent byte holds before a call.
const MARKER: u8 = 238;

fn main(rt: HostRuntime) {
    let mut cases = zeros::<u8, CASES>();
    let mut file = zeros::<u8, PART>();
    let mut words = zeros::<u8, PART>();
    let mut out = zeros::<u8, PART>();
    let n = stored_cases::read(&rt, b"cases", &mut cases);
    records(part(&cases, 0, n), &mut file, &mut words, &mut out);
}

// Goes through the records.
fn records(cases: &[u8], file: &mut [u8], words: &mut [u8], out: &mut [u8]) {
    let mut at = 0;
    for _ in 0..MOST_RECORDS {
        if at >= cases.len() {
            return;
        }
        at = record(cases, at, file, words, out);
    }
}

// Makes the call of the record at an index. The answer is where the record ends.
fn record(cases: &[u8], at: usize, file: &mut [u8], words: &mut [u8], out: &mut [u8]) -> usize {
    let header = part(cases, at, 43);
    let lent = triple(header, 6).min(out.len());
    let first = label(cases, at, header);
    let second = stored(cases, first, part(header, 13, 15), file);
    let end = stored(cases, second, part(header, 28, 15), words);
    call(
        header,
        part(file, 0, triple(header, 25)),
        part(words, 0, triple(header, 40)),
        &mut out[0..lent],
    );
    io::write_all(1, b"\n");
    end
}

// Makes the call that a header tells of, with these bytes lent, and prints its answer.
fn call(header: &[u8], lending: &[u8], words: &[u8], out: &mut [u8]) {
    out.fill(MARKER);
    match header.first() {
        Some(b'w') => lend(header, lending, words, out, false),
        Some(b'W') => lend(header, lending, words, out, true),
        Some(b'a') => again(lending, out),
        _ => {
            io::write_all(1, b"no such call");
        }
    }
}

// Makes a call with words for its table.
fn lend(header: &[u8], lending: &[u8], words: &[u8], out: &mut [u8], whole: bool) {
    let mut nodes = zeros::<u16, NODE_WORDS>();
    let mut rules = zeros::<u16, RULE_WORDS>();
    let n = pair(header, 9).min(NODE_WORDS);
    let r = pair(header, 11).min(RULE_WORDS);
    write_in(
        header,
        lending,
        words,
        &mut nodes[0..n],
        &mut rules[0..r],
        out,
        whole,
    );
}

// Writes the table of stored words, in the words lent for it, with the start of a header.
fn write_in(
    header: &[u8],
    lending: &[u8],
    words: &[u8],
    nodes: &mut [u16],
    rules: &mut [u16],
    out: &mut [u8],
    whole: bool,
) {
    let node = pair(header, 2) as u16;
    let mode = pair(header, 4) as u16;
    load(words, nodes);
    load(part(words, nodes.len() * 2, words.len()), rules);
    let answer = grammar_writer::write(lending, nodes, rules, node, mode, out);
    show_written(answer, out, whole);
}

// Prints how many bytes were written, these or a sum of them, or the refusal, and whether the other bytes are as before.
fn show_written(answer: Result<usize, Refusal>, out: &[u8], whole: bool) {
    match answer {
        Ok(n) => {
            show_one(b"written", n as u64);
            show_bytes(part(out, 0, n), whole);
            show_kept(out, n);
        }
        Err(refusal) => show_refused(refusal, out),
    }
}

// Prints the number of a refusal, and whether every byte is as before.
fn show_refused(refusal: Refusal, out: &[u8]) {
    show_one(b"refused", refusal.number() as u64);
    show_kept(out, 0);
}

// Prints whether every byte from an index on is still marked.
fn show_kept(out: &[u8], from: usize) {
    show_either(filled(out, from, MARKER), b" | kept", b" | changed");
}

// Prints bytes, or a sum of them.
fn show_bytes(bytes: &[u8], whole: bool) {
    if whole {
        io::write_all(1, b" | ");
        show_hex(bytes);
    } else {
        show_one(b" | sum", sum(bytes));
    }
}

// Reads a file into the most words that one has, and writes what was read.
fn again(file: &[u8], out: &mut [u8]) {
    let mut nodes = [0u16; 2048];
    let mut rules = [0u16; 128];
    match grammar_file::read(file, &mut nodes, &mut rules) {
        Ok(contents) => {
            let x = contents.nodes.min(512) * 4;
            let y = contents.rules.min(128);
            write_again(
                file,
                &nodes[0..x],
                &rules[0..y],
                contents.start,
                contents.mode,
                out,
            );
        }
        Err(refusal) => show_refused(refusal, out),
    }
}

// Writes what was read of a file, and prints whether the same bytes came out.
fn write_again(file: &[u8], nodes: &[u16], rules: &[u16], start: u16, mode: u16, out: &mut [u8]) {
    match grammar_writer::write(file, nodes, rules, start, mode, out) {
        Ok(n) => {
            show_one(b"again", n as u64);
            show_either(part(out, 0, n) == file, b" | same", b" | differs");
            show_kept(out, n);
        }
        Err(refusal) => show_refused(refusal, out),
    }
}

// A sum of bytes that tells their order too.
fn sum(bytes: &[u8]) -> u64 {
    let mut total = 0;
    for byte in bytes {
        total = added(total, *byte);
    }
    total
}

// The next sum: 31 times the last and the byte, less whole thousand millions.
fn added(total: u64, byte: u8) -> u64 {
    (total % 1000000000 * 31 + u64::from(byte)) % 1000000000
}

// Prints bytes as two digits each.
fn show_hex(bytes: &[u8]) {
    for byte in bytes {
        show_byte(*byte);
    }
}

// Prints a byte as two digits, the high one first.
fn show_byte(byte: u8) {
    let two = [digit(byte / 16), digit(byte % 16)];
    io::write_all(1, &two);
}

// The digit of a number below 16.
fn digit(n: u8) -> u8 {
    match n {
        0..=9 => b'0' + n,
        10..=15 => b'a' + (n - 10),
        _ => b'?',
    }
}
