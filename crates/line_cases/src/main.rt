// Makes the calls that the file `cases` lists and prints a line for each: a label and the answer.
// `cases/line_cases.py` writes that file and the lines that are expected.
//
// A record is a header of 32 bytes, a label, a grammar file and a report. The header has the kind of the call and the
// label's length in one byte each, and ten numbers of three bytes each: five that tell how the file is stored
// (`stored_cases::stored`), then the report. The kinds:
//   l  the line of the file and the report
#![tactic(auto)]

use stored_cases::{CASES, MOST_RECORDS, PART, label, part, stored, triple, zeros};

fn main(rt: HostRuntime) {
    let mut cases = zeros::<u8, CASES>();
    let mut file = zeros::<u8, PART>();
    let mut report = zeros::<u8, PART>();
    let n = stored_cases::read(&rt, b"cases", &mut cases);
    records(part(&cases, 0, n), &mut file, &mut report);
}

// Goes through the records.
fn records(cases: &[u8], file: &mut [u8], report: &mut [u8]) {
    let mut at = 0;
    for _ in 0..MOST_RECORDS {
        if at >= cases.len() {
            return;
        }
        at = record(cases, at, file, report);
    }
}

// Makes the call of the record at an index. The answer is where the record ends.
fn record(cases: &[u8], at: usize, file: &mut [u8], report: &mut [u8]) -> usize {
    let header = part(cases, at, 32);
    let first = label(cases, at, header);
    let second = stored(cases, first, part(header, 2, 15), file);
    let end = stored(cases, second, part(header, 17, 15), report);
    call(
        header,
        part(file, 0, triple(header, 14)),
        part(report, 0, triple(header, 29)),
    );
    end
}

// Makes the call that a header tells of and prints its answer.
fn call(header: &[u8], file: &[u8], report: &[u8]) {
    match header.first() {
        Some(b'l') => {
            stored_runs::show_line(file, report);
        }
        _ => {
            io::write_all(1, b"no such call\n");
        }
    }
}
