// What the programs over stored cases share: reading a file of cases, its numbers and its parts, and printing answers.
//
// A file of cases is records, one behind the other. A record is a header of a length that the program knows, a label,
// and the parts of a call. A header begins with the kind of the call, a letter, and the label's length, in one byte each;
// what follows is the program's. The bytes of a part are copied to where a program keeps the part of the record before
// (`fill`), or put together from such bytes and repeated ones (`stored`). Numbers have one to four bytes, high byte first;
// bytes that are not there count as 0, so each function answers for any bytes. A program supplies the loop over the records
// (`label`, then each part, then the call, each from the index on that the one before answered), an arm for each kind, and
// what it prints of an answer; of a kind that it does not know it prints `no such call`. Cases are added to a file by its
// script under `cases/`; a new call is an arm more in the program over that crate.
#![tactic(auto)]

ghost use Rattle.std.specs.Prelude.{◌≡◌, ℕ, ◌*◌, ◌+◌, ◌<◌, List, length, take, drop, get_or, IfOk};
ghost use Rattle.io.specs.Counts.{IsPrefixLen};
ghost use Rattle.table.specs.Words.{tabulate};
ghost use Rattle.stored_cases.specs.Numbers.{pair_at, triple_at, quad_at};
ghost use Rattle.stored_cases.specs.Parts.{past, label_end, room, filled_by, repeated, stored_bytes, stored_end};
ghost use Rattle.stored_cases.specs.InternalWords.{pair_from_rest, quad_from_rest};

use files::{STDERR, STDOUT};
use slices::front;
use std::fs::File;
use std::io::{Error, ErrorKind};
use std::rt::Files;

// At least the number of records of a file.
pub const MOST_RECORDS: u32 = 100000;

// Room for a file of cases and for a part of a record, in bytes.
pub const CASES: usize = 1000000;

pub const PART: usize = 140000;

// Node words, rule words and words of tokens to lend, more of each than are allowed.
pub const NODE_WORDS: usize = 2100;

pub const RULE_WORDS: usize = 200;

pub const TOKEN_WORDS: usize = 16500;

// Words to remember in.
pub const MEMORY_WORDS: usize = 65536;

// Reads a file, and says how many bytes it gave: none if it cannot be opened.
pub fn read(rt: &(impl Files<File = File> + Alloc), path: &[u8], bytes: &mut [u8]) -> usize
    ensures { IsPrefixLen result bytes.new }
{
    match read_path(rt, path, bytes) {
        Ok(n) => n,
        Err(error) => {
            fail(rt, path, &error);
            0
        }
    }
}

// Reads a file. std takes a path as text, so one that is not UTF-8 is refused.
fn read_path(
    files: &impl Files<File = File>,
    path: &[u8],
    bytes: &mut [u8],
) -> std::io::Result<usize>
    ensures { IfOk result (λ n. IsPrefixLen n bytes.new) }
{
    match std::str::from_utf8(path) {
        Ok(path) => files::read(files, path, bytes),
        Err(_) => Err(Error::from(ErrorKind::InvalidFilename)),
    }
}

// Writes a line to standard error: what failed, a colon and why, without the system's number of the error.
fn fail(rt: &impl Alloc, what: &[u8], error: &Error) {
    io::write_all(STDERR, what);
    io::write_all(STDERR, b": ");
    if let Ok(text) = error.to_string(rt.alloc()) {
        io::write_all(STDERR, without_number(text.as_str()).as_bytes());
    }
    io::write_all(STDERR, b"\n");
}

// An error's text without the system's number of it, which std puts behind it.
fn without_number(text: &str) -> &str {
    match text.split_once(" (os error ") {
        Some((reason, _)) => reason,
        None => text,
    }
}

// N zeros, as room to lend; only their number is said.
pub fn zeros<T: Default + Copy, const N: usize>() -> [T; N]
    ensures { N ≡ length result }
{
    [T::default(); N]
}

// The n bytes from an index on, or as many as there are.
pub fn part(bytes: &[u8], at: usize, n: usize) -> &[u8]
    ensures { result.now ≡ take n (drop at bytes.now) }
{
    front(rest_of(bytes, at), n)
}

// The bytes from an index on, none where it lies behind them.
fn rest_of(bytes: &[u8], at: usize) -> &[u8]
    ensures { result.now ≡ drop at bytes.now }
{
    &bytes[at.min(bytes.len())..]
}

// The N bytes from an index on, 0 for each that is not there.
fn bytes_at<const N: usize>(bytes: &[u8], at: usize) -> [u8; N]
    ensures { (k : ℕ) → k < N → get_or result k 0 ≡ get_or bytes.now (at + k) 0 }
{
    let rest = rest_of(bytes, at);
    if let Some(found) = rest.first_chunk::<N>() {
        return *found;
    }
    let mut found = [0; N];
    found[..rest.len()].copy_from_slice(rest);
    found
}

// The byte at an index.
pub fn byte(bytes: &[u8], at: usize) -> usize
    ensures { (result ≡ get_or bytes.now at 0) × (result < 256) }
{
    bytes.get(at).copied().unwrap_or(0) as usize
}

// The number of two bytes at an index.
pub fn pair(bytes: &[u8], at: usize) -> usize
    ensures { (result ≡ pair_at bytes.now at) × (result < 65536) }
{
    u16::read(bytes, at) as usize
}

// The number of three bytes at an index.
#[tactic(auto, unfolding(crate::specs::Numbers::triple_at, crate::specs::Numbers::pair_at))]
pub fn triple(bytes: &[u8], at: usize) -> usize
    ensures { (result ≡ triple_at bytes.now at) × (result < 16777216) }
{
    let [high, middle, low] = bytes_at::<3>(bytes, at);
    u32::from_be_bytes([0, high, middle, low]) as usize
}

// The number of four bytes at an index.
pub fn quad(bytes: &[u8], at: usize) -> u32
    ensures { result ≡ quad_at bytes.now at }
{
    u32::read(bytes, at)
}

// A word of a table, of two bytes in a file of cases, or of tokens, of four.
pub trait Word: Copy {
    ghost SIZE: { ℕ };

    // The word at an index.
    ghost word_at: { List ℕ → ℕ → Self };

    // How many bytes it has in a file of cases.
    const SIZE: usize;

    fn read(bytes: &[u8], at: usize) -> Self
        ensures { result ≡ word_at bytes.now at };

    // The word at an index is the first of the bytes from there on.
    ghost from_rest: { (bytes : List ℕ) (i : ℕ) → word_at (drop i bytes) 0 ≡ word_at bytes i };
}

impl Word for u16 {
    ghost SIZE = { 2 };

    ghost word_at = { pair_at };

    ghost from_rest = { pair_from_rest };

    const SIZE: usize = 2;

    #[tactic(auto, unfolding(crate::specs::Numbers::pair_at))]
    fn read(bytes: &[u8], at: usize) -> u16 {
        u16::from_be_bytes(bytes_at(bytes, at))
    }
}

impl Word for u32 {
    ghost SIZE = { 4 };

    ghost word_at = { quad_at };

    ghost from_rest = { quad_from_rest };

    const SIZE: usize = 4;

    #[tactic(auto, unfolding(crate::specs::Numbers::quad_at, crate::specs::Numbers::triple_at, crate::specs::Numbers::pair_at))]
    fn read(bytes: &[u8], at: usize) -> u32 {
        u32::from_be_bytes(bytes_at(bytes, at))
    }
}

// Sets the words to those of the bytes, from the start on.
pub fn load<W: Word>(bytes: &[u8], words: &mut [W])
    ensures { words.new ≡ tabulate (length words.old) (λ i. W.word_at bytes.now (i * W.SIZE)) }
{
    let mut rest = bytes;
    for word in words.iter_mut() {
        *word = W::read(rest, 0);
        rest = rest_of(rest, W::SIZE);
    }
}

// Where the n bytes from an index on end.
pub fn after(cases: &[u8], at: usize, n: usize) -> usize
    ensures { result ≡ past cases.now at n }
{
    at + part(cases, at, n).len()
}

// How many bytes there are from one index to before another.
fn room_of(bytes: &[u8], from: usize, end: usize) -> usize
    ensures { result ≡ room bytes.now from end }
{
    end.min(bytes.len()).saturating_sub(from)
}

// Sets the bytes from one index to before another to those of the cases from `at` on, as far as there are both. The
// answer is where the bytes taken end.
#[tactic(auto, using(crate::proofs::Laws::filled))]
pub fn fill(cases: &[u8], at: usize, bytes: &mut [u8], from: usize, end: usize) -> usize
    ensures value { result ≡ past cases.now at (room bytes.old from end) }
    ensures bytes_after { bytes.new ≡ filled_by cases.now at bytes.old from end }
{
    let taken = part(cases, at, room_of(bytes, from, end));
    slices::put(taken, bytes, from);
    at + taken.len()
}

// Sets each byte from one index to before another to the one at the distance before it, one after the other; none where
// the distance leads before the start.
#[tactic(auto, using(crate::proofs::Laws::repeating_all, crate::proofs::Laws::repeating_more), unfolding(crate::specs::Parts::repeated))]
fn repeat(bytes: &mut [u8], from: usize, end: usize, distance: usize)
    ensures { bytes.new ≡ repeated bytes.old from end distance }
{
    if distance > from {
        return;
    }
    for i in from..end.min(bytes.len()) {
        bytes[i] = bytes[i - distance];
    }
}

// Puts a part together by five numbers of three bytes. The answer is where its bytes end.
#[tactic(auto, unfolding(crate::specs::Parts::stored_bytes, crate::specs::Parts::stored_end))]
pub fn stored(cases: &[u8], at: usize, five: &[u8], bytes: &mut [u8]) -> usize
    ensures value { result ≡ stored_end cases.now at five.now bytes.old }
    ensures bytes_after { bytes.new ≡ stored_bytes cases.now at five.now bytes.old }
{
    let head = triple(five, 3);
    let middle = triple(five, 9);
    let next = fill(cases, at, bytes, triple(five, 0), head);
    repeat(bytes, head, middle, triple(five, 6));
    fill(cases, next, bytes, middle, triple(five, 12))
}

// Prints the label behind a header at an index, whose second byte is the label's length, and ": ". The answer is where the
// label ends.
pub fn label(cases: &[u8], at: usize, header: &[u8]) -> usize
    ensures { result ≡ label_end cases.now at header.now }
{
    let n = byte(header, 1);
    let from = after(cases, at, header.len());
    io::write_all(STDOUT, part(cases, from, n));
    io::write_all(STDOUT, b": ");
    after(cases, from, n)
}

// Prints the first text where a test holds, else the second. The answer is the test.
pub fn show_either(test: bool, first: &[u8], second: &[u8]) -> bool
    ensures { result ≡ test }
{
    io::write_all(STDOUT, if test { first } else { second });
    test
}

// Prints a text, a blank and a number. The answer is how many numbers there were, one.
pub fn show_one(text: &[u8], number: u64) -> usize
    ensures { result ≡ 1 }
{
    io::write_all(STDOUT, text);
    io::write_all(STDOUT, b" ");
    io::print_decimal(STDOUT, number);
    1
}

// Prints a text and numbers, a blank before each. The answer is how many numbers there were.
pub fn show(text: &[u8], numbers: &[u64]) -> usize
    ensures { result ≡ length numbers.now }
{
    io::write_all(STDOUT, text);
    show_each(numbers)
}

// Prints words, a blank before each. The answer is how many there were.
pub fn show_each<W: Copy + Into<u64>>(words: &[W]) -> usize
    ensures { result ≡ length words.now }
{
    let mut shown = 0;
    for word in words {
        shown += show_one(b"", (*word).into());
    }
    shown
}

// Prints words of tokens or captures, a bar before each four. The answer is how many there were.
pub fn show_fours(words: &[u32]) -> usize
    ensures { result ≡ length words.now }
{
    let mut shown = 0;
    for four in words.chunks(4) {
        io::write_all(STDOUT, b" |");
        shown += show_each(four);
    }
    shown
}
