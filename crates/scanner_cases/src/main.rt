// Makes the calls that the file `cases` lists and prints a line for each: a label and the answer.
// `cases/scanner_cases.py` writes that file and the lines that are expected.
//
// A record is a header of 39 bytes, a label, a grammar file and a report. The header has the kind of the
// call, the label's length and the mark (0 is clear) in one byte each, and twelve numbers of three bytes
// each: x, y, and five that tell how the file is stored (`stored_cases::stored`), then the report. The kinds:
//   s  scan the report, x words lent
//   a  the same, then hand out the report's tokens one by one
//   n  the next token from offset x and column y on, with the mark
//   o  the same, where x counts down from the greatest offset
//   c  the same, where y counts down from the greatest column
//   v  step x of a scanner's value, counted from 0
#![tactic(auto)]

ghost use Rattle.std.specs.Prelude.{◌≡◌, false, ◌⊎◌, ◌≤◌};
ghost use Rattle.scanner_cases.specs.Handing.{is_token, is_word, holds_at, Walked};

use places::Position;
use scanner::{Step, Token, next_token};
use slices::{filled, front};
use stored_cases::{
    CASES, MOST_RECORDS, PART, TOKEN_WORDS, byte, label, part, show, show_each, show_either,
    show_fours, show_one, stored, triple, zeros,
};
use table::Refusal;

// The kinds of calls.
const SCAN: usize = b's' as usize;

const HAND_OUT: usize = b'a' as usize;

const NEXT: usize = b'n' as usize;

const OFFSET_DOWN: usize = b'o' as usize;

const COLUMN_DOWN: usize = b'c' as usize;

const VALUE: usize = b'v' as usize;

// What every lent word holds before a scan.
const MARKER: u32 = 4000000000;

// Scans of no more tokens than these have every word printed.
const FEW: usize = 24;

// No more tokens than these are handed out.
const MOST_HANDED: usize = 5000;

// How many tokens were handed out, whether they are those of the scan, and the last step.
#[derive(Clone, Copy)]
struct Walk {
    count: usize,
    same: bool,
    last: Step,
}

fn main(rt: HostRuntime) {
    let mut cases = zeros::<u8, CASES>();
    let mut file = zeros::<u8, PART>();
    let mut report = zeros::<u8, PART>();
    let n = stored_cases::read(&rt, b"cases", &mut cases);
    records(part(&cases, 0, n), &mut file, &mut report);
}

// Goes through the records.
fn records(cases: &[u8], file: &mut [u8], report: &mut [u8]) {
    let mut at = 0;
    for _ in 0..MOST_RECORDS {
        if at >= cases.len() {
            return;
        }
        at = record(cases, at, file, report);
    }
}

// Makes the call of the record at an index. The answer is where the record ends.
fn record(cases: &[u8], at: usize, file: &mut [u8], report: &mut [u8]) -> usize {
    let header = part(cases, at, 39);
    let first = label(cases, at, header);
    let second = stored(cases, first, part(header, 9, 15), file);
    let end = stored(cases, second, part(header, 24, 15), report);
    call(
        header,
        part(file, 0, triple(header, 21)),
        part(report, 0, triple(header, 36)),
    );
    end
}

// Makes the call that the header tells of and prints its answer.
fn call(header: &[u8], file: &[u8], report: &[u8]) {
    let x = triple(header, 3);
    let from = Position {
        offset: x,
        column: triple(header, 6) as u32,
        mark: byte(header, 2) != 0,
    };
    match byte(header, 0) {
        SCAN => lend(file, report, x, false),
        HAND_OUT => lend(file, report, x, true),
        NEXT => show_step(next_token(file, report, from)),
        OFFSET_DOWN => show_step(next_token(
            file,
            report,
            Position {
                offset: usize::MAX - x,
                ..from
            },
        )),
        COLUMN_DOWN => show_step(next_token(
            file,
            report,
            Position {
                column: u32::MAX - from.column,
                ..from
            },
        )),
        VALUE => show_handed(scanner_value::nth(file, report, x)),
        _ => {
            io::write_all(1, b"no such call");
        }
    }
    io::write_all(1, b"\n");
}

// Makes a call that is lent x words.
fn lend(file: &[u8], report: &[u8], x: usize, all: bool) {
    let mut tokens = zeros::<u32, TOKEN_WORDS>();
    let n = x.min(TOKEN_WORDS);
    show_lent(file, report, &mut tokens[..n], all);
}

// Prints what a scan answers, then, where all are asked for, what is handed out one by one.
fn show_lent(file: &[u8], report: &[u8], tokens: &mut [u32], all: bool) {
    let count = show_scan(file, report, tokens);
    if all {
        show_all(hand_out(file, report, tokens), count);
    }
}

// Prints what a scan answers and wrote. The answer here is the number of tokens, 0 where the scan was refused.
fn show_scan(file: &[u8], report: &[u8], tokens: &mut [u32]) -> usize {
    tokens.fill(MARKER);
    let scanned = token_words::scan(file, report, tokens);
    show_scanned(scanned);
    let count = scanned.unwrap_or(0);
    show_tokens(tokens, count);
    count
}

// Prints how many tokens a scan has, or its refusal.
fn show_scanned(scanned: Result<usize, Refusal>) {
    match scanned {
        Ok(n) => show_one(b"tokens", n as u64),
        Err(refusal) => show_refused(refusal),
    };
}

// Prints `refused` and the number of a refusal.
fn show_refused(refusal: Refusal) -> usize {
    show_one(b"refused", refusal.number() as u64)
}

// Prints how many tokens were handed out one by one, what comes after them, and whether they are those of the scan, where
// it had some.
fn show_all(walk: Walk, count: usize) {
    show_one(b" | handed", walk.count as u64);
    io::write_all(1, b" then ");
    show_step(walk.last);
    if count > 0 {
        let same = walk.same && walk.count == count;
        show_either(same, b" | same", b" | different");
    }
}

// Hands out the tokens of the report from its start on until there is none, a refusal or 5,000 of them, and compares
// them with the words.
fn hand_out(file: &[u8], report: &[u8], words: &[u32]) -> Walk
    ensures walked { Walked file.now report.now words.now result.count result.same result.last }
    ensures fact { (is_token result.last.handed ≡ false) ⊎ (result.count ≡ 5000) }
{
    let mut same = true;
    let mut last = next_token(file, report, Position::START);
    for count in 0..MOST_HANDED {
        let Ok(Some(token)) = last.handed else {
            return Walk { count, same, last };
        };
        same = same && holds(words, count, token);
        last = next_token(file, report, last.reached);
    }
    Walk {
        count: MOST_HANDED,
        same,
        last,
    }
}

// Whether words 4 i to 4 i + 3 are those of the token.
fn holds(words: &[u32], i: usize, token: Token) -> bool
    requires { i ≤ 5000 }
    ensures { result ≡ holds_at words.now i (Ok (Some token)) }
{
    let at = i * 4;
    is_word(words, at, token.terminal)
        && is_word(words, at + 1, token.column)
        && is_word(words, at + 2, token.offset)
        && is_word(words, at + 3, token.length)
}

// Whether there is a word at an index, and it is this one.
fn is_word(words: &[u32], at: usize, word: u32) -> bool
    ensures { result ≡ is_word words.now at word }
{
    words.get(at).is_some_and(|there| *there == word)
}

// Prints the token handed out, `none` or the number of a refusal, then the offset, column and mark.
fn show_step(step: Step) {
    show_handed(step.handed);
    let reached = step.reached;
    show(b" | at", &[reached.offset as u64, reached.column as u64]);
    show_either(reached.mark, b" set", b" clear");
}

// Prints the token handed out, `none` or the number of a refusal.
fn show_handed(handed: Result<Option<Token>, Refusal>) {
    match handed {
        Ok(Some(token)) => {
            io::write_all(1, b"token");
            show_each(&[token.terminal, token.column, token.offset, token.length]);
        }
        Ok(None) => {
            io::write_all(1, b"none");
        }
        Err(refusal) => {
            show_refused(refusal);
        }
    }
}

// Prints the words of n tokens, and whether a scan left those behind them alone.
fn show_tokens(words: &[u32], n: usize) {
    let written = front(words, n.min(MOST_HANDED) * 4);
    show_first(written, n);
    let kept = filled(words, written.len(), MARKER);
    show_either(kept, b" | kept", b" | changed");
}

// Prints the words of n tokens where they are few, else those of the last two and a sum of all.
fn show_first(words: &[u32], n: usize) {
    if n <= FEW {
        show_fours(words);
        return;
    }
    show_fours(&words[words.len().saturating_sub(8)..]);
    show_one(b" | sum", sum(words));
}

// A sum of words that tells their order too.
fn sum(words: &[u32]) -> u64 {
    words.iter().fold(0, |total, word| added(total, *word))
}

// The next sum: 31 times the last and the word, less whole thousand millions.
fn added(total: u64, word: u32) -> u64 {
    (total % 1000000000 * 31 + word as u64) % 1000000000
}
