// Makes the calls that the file `cases` lists and prints a line for each: a label and the answer.
// `cases/shown_text_cases.py` writes that file and the lines that are expected.
//
// A record is a header of 63 bytes, a label, a grammar file, a report and tokens. The header has the kind of the call and
// the label's length in one byte each, the capture's words in four each, and fifteen numbers of three bytes each: five that
// tell how the file is stored (`stored_cases::stored`), then the report, then the tokens. A token word has four bytes. The
// kinds:
//   s  the number for the text shown for the capture, or where the text lies; then the text
#![tactic(auto)]

use columns::Capture;
use shown_text::ShownPart;
use stored_cases::{
    CASES, MOST_RECORDS, PART, TOKEN_WORDS, byte, label, load, part, quad, show, show_one, stored,
    triple, zeros,
};
use table::Refusal;

// The kinds of calls.
const SHOWN: usize = b's' as usize;

// Texts of no more bytes than these are printed whole, of others so many at either end.
const FEW: usize = 64;

const END: usize = 32;

fn main(rt: HostRuntime) {
    let mut cases = zeros::<u8, CASES>();
    let mut file = zeros::<u8, PART>();
    let mut report = zeros::<u8, PART>();
    let mut text = zeros::<u8, PART>();
    let n = stored_cases::read(&rt, b"cases", &mut cases);
    records(part(&cases, 0, n), &mut file, &mut report, &mut text);
}

// Goes through the records.
fn records(cases: &[u8], file: &mut [u8], report: &mut [u8], text: &mut [u8]) {
    let mut at = 0;
    for _ in 0..MOST_RECORDS {
        if at >= cases.len() {
            return;
        }
        at = record(cases, at, file, report, text);
    }
}

// Makes the call of the record at an index. The answer is where the record ends.
fn record(cases: &[u8], at: usize, file: &mut [u8], report: &mut [u8], text: &mut [u8]) -> usize {
    let header = part(cases, at, 63);
    let first = label(cases, at, header);
    let second = stored(cases, first, part(header, 18, 15), file);
    let third = stored(cases, second, part(header, 33, 15), report);
    with_tokens(
        cases,
        third,
        header,
        part(file, 0, triple(header, 30)),
        part(report, 0, triple(header, 45)),
        text,
    )
}

// Makes the call of a record whose tokens are stored at an index. The answer is where they end.
fn with_tokens<'a>(
    cases: &[u8],
    at: usize,
    header: &[u8],
    file: &'a [u8],
    report: &'a [u8],
    text: &mut [u8],
) -> usize {
    let end = stored(cases, at, part(header, 48, 15), text);
    call(header, file, report, part(text, 0, triple(header, 60)));
    io::write_all(1, b"\n");
    end
}

// What a text is asked for, but for the tokens.
#[derive(Clone, Copy)]
struct Asked<'a> {
    file: &'a [u8],
    report: &'a [u8],
    capture: Capture,
}

// Makes the call that a header tells of, over stored words of tokens, and prints its answer.
fn call<'a>(header: &[u8], file: &'a [u8], report: &'a [u8], tokens: &[u8]) {
    let capture = Capture {
        rule: quad(header, 2),
        first: quad(header, 6),
        after: quad(header, 10),
        around: quad(header, 14),
    };
    match byte(header, 0) {
        SHOWN => lend(
            Asked {
                file,
                report,
                capture,
            },
            tokens,
        ),
        _ => {
            io::write_all(1, b"no such call");
        }
    }
}

// Makes a call with words for its tokens, at most 16,500 of them.
fn lend(asked: Asked, tokens: &[u8]) {
    let mut words = zeros::<u32, TOKEN_WORDS>();
    let n = (tokens.len() / 4).min(TOKEN_WORDS);
    show_in(asked, tokens, &mut words[0..n]);
}

// Prints the answers of both calls over the tokens, in the words lent for them.
fn show_in(asked: Asked, tokens: &[u8], words: &mut [u32]) {
    load(tokens, words);
    show_place(shown_text::shown(asked.file, asked.report, words, asked.capture));
    show_text(shown_text::text(asked.file, asked.report, words, asked.capture));
}

// Prints where a text lies, by its offset and length, or `refused` with the number.
fn show_place(place: Result<ShownPart, Refusal>) {
    match place {
        Ok(ShownPart::InReport { offset, length }) => show_two(b"report", offset, length),
        Ok(ShownPart::InFile { offset, length }) => show_two(b"file", offset, length),
        Err(refusal) => {
            show_one(b"refused", refusal.number() as u64);
        }
    }
}

fn show_two(text: &[u8], offset: usize, length: usize) {
    let numbers = [offset as u64, length as u64];
    show(text, &numbers);
}

// Prints a text between quotes, or the two ends of a long one.
fn show_text(text: &[u8]) {
    if text.len() <= FEW {
        show_quoted(text);
        return;
    }
    let from = text.len() - END;
    show_quoted(&text[0..END]);
    io::write_all(1, b" ..");
    show_quoted(&text[from..]);
}

// Prints bytes between quotes.
fn show_quoted(text: &[u8]) {
    io::write_all(1, b" \"");
    for byte in text {
        show_byte(*byte);
    }
    io::write_all(1, b"\"");
}

// Prints a byte. Those that a report may have and that would move on a line, and the backslash, are two characters.
fn show_byte(byte: u8) {
    let one = [byte];
    let shown: &[u8] = match byte {
        b'\t' => b"\\t",
        b'\n' => b"\\n",
        b'\r' => b"\\r",
        b'\\' => b"\\\\",
        _ => &one,
    };
    io::write_all(1, shown);
}
