// Makes the runs of the file `cases`, which come from published papers, and prints a line for each: a label and what the
// run ends in. `cases/published.py` writes that file and the lines that are expected, with the source of each.
//
// A record is a header of 29 bytes, a label and three parts. The header has the kind of the call and the label's length in
// one byte each, the start in 18 (`stored_runs::start`), and the lengths of the three parts in three each. The kinds:
//   r  run a table: the parts are node words and rule words of two bytes and token words of four
//   R  the same by the reading of 2014
//   l  the line of a grammar file and a report, the first two parts; no start is told
#![tactic(auto)]

use columns::Reading;
use stored_cases::{CASES, MOST_RECORDS, label, part, triple, zeros};

fn main(rt: HostRuntime) {
    let mut cases = zeros::<u8, CASES>();
    let n = stored_cases::read(&rt, b"cases", &mut cases);
    records(part(&cases, 0, n));
}

// Goes through the records.
fn records(cases: &[u8]) {
    let mut at = 0;
    for _ in 0..MOST_RECORDS {
        if at >= cases.len() {
            return;
        }
        at = record(cases, at);
    }
}

// Makes the run of the record at an index. The answer is where the record ends.
fn record(cases: &[u8], at: usize) -> usize {
    let header = part(cases, at, 29);
    let a = triple(header, 20);
    let b = triple(header, 23);
    let c = triple(header, 26);
    let first = label(cases, at, header);
    let second = stored_cases::after(cases, first, a);
    let third = stored_cases::after(cases, second, b);
    call(
        header,
        part(cases, first, a),
        part(cases, second, b),
        part(cases, third, c),
    );
    stored_cases::after(cases, third, c)
}

// Makes the call that a header tells of and prints its answer.
fn call(header: &[u8], a: &[u8], b: &[u8], c: &[u8]) {
    match header.first() {
        Some(b'r') => run(header, a, b, c, Reading::By2017),
        Some(b'R') => run(header, a, b, c, Reading::By2014),
        Some(b'l') => {
            stored_runs::show_line(a, b);
        }
        _ => {
            io::write_all(1, b"no such call\n");
        }
    }
}

// Makes a run from the start that a header tells of, and prints what it ended in.
fn run(header: &[u8], a: &[u8], b: &[u8], c: &[u8], reading: Reading) {
    let start = stored_runs::start(part(header, 2, 18));
    stored_runs::show(stored_runs::run_stored(a, b, c, start, reading));
    io::write_all(1, b"\n");
}
