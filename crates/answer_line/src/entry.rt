// The line of an entry: from a capture to the bytes that the program `entries` prints for it, without the blanks in front.
ghost use Rattle.std.specs.Prelude.{◌≡◌, ◌++◌, ◌≤◌, ◌+◌, ◌*◌, length, get_or, take};
ghost use Rattle.answer_line.specs.EntryLine.{breaks, first_line, entry_count, entry_after, read_bytes, unread_bytes};
ghost use Rattle.answer_line.specs.InternalPut.{Puts};

use crate::text::{put, put_number, put_word};
use columns::Capture;
use shown_text::ShownPart;

// Room enough for every line, in bytes.
pub const ROOM: usize = 65664;

// Writes the line, and says how many bytes it has: none where the shown text is refused. A slice of fewer than 65,664 bytes
// is left as it is, and the answer is 0.
#[tactic(auto, unfolding(crate::specs::EntryLine::entry_count, crate::specs::EntryLine::entry_after, crate::specs::InternalPut::pasted))]
pub fn write(file: &[u8], report: &[u8], tokens: &[u32], capture: Capture, out: &mut [u8]) -> usize
    ensures value { result
        ≡ entry_count file.now report.now tokens.now capture
        (length out.old) }
    ensures out_after { out.new
        ≡ entry_after file.now report.now tokens.now capture out.old }
{
    if out.len() < ROOM {
        return 0;
    }
    let name = grammar_file::rule_name(file, capture.rule as usize);
    match shown_text::shown(file, report, tokens, capture) {
        Err(_) => 0,
        Ok(ShownPart::InFile { .. }) => put_unread(out, name),
        Ok(ShownPart::InReport { offset, length }) => {
            let text = first_line(&report[offset..offset + length]);
            let line = line_at(report, offset);
            let column = column_at(tokens, capture.first);
            put_read(out, name, line, column + 1, text)
        }
    }
}

// Puts the line of an entry that read tokens: name, line, column, text.
fn put_read(out: &mut [u8], name: &[u8], line: u32, column: u32, text: &[u8]) -> usize
    requires { length name.now + length text.now + 24 ≤ length out.old }
    ensures { Puts out.old 0 (read_bytes name.now line column text.now) result out.new }
{
    let first = put_word(out, 0, name);
    let second = put_number(out, first, b" ", line);
    let third = put_number(out, second, b":", column);
    let fourth = put_word(out, third, b" ");
    let fifth = put_word(out, fourth, text);
    put(out, fifth, b'\n')
}

// Puts the line of an entry that read none.
fn put_unread(out: &mut [u8], name: &[u8]) -> usize
    requires { length name.now + 3 ≤ length out.old }
    ensures { Puts out.old 0 (unread_bytes name.now) result out.new }
{
    let first = put_word(out, 0, name);
    put_word(out, first, b" -\n")
}

// The bytes before the first line break.
fn first_line(text: &[u8]) -> &[u8]
    ensures { result.now ≡ first_line text.now }
{
    match text.iter().position(|byte| *byte == b'\n') {
        Some(end) => &text[..end],
        None => text,
    }
}

// The line, from 1, in which the byte at an offset stands.
pub(crate) fn line_at(report: &[u8], offset: usize) -> u32
    requires { (offset ≤ length report.now) × (length report.now ≤ 65535) }
    ensures { result ≡ 1 + breaks (take offset report.now) }
{
    let before = &report[..offset];
    1 + before.iter().filter(|byte| **byte == b'\n').count() as u32
}

// The column of a token, from 0; 0 where there is no such token.
pub(crate) fn column_at(tokens: &[u32], w: u32) -> u32
    ensures { result ≡ get_or tokens.now (w * 4 + 1) 0 }
{
    let at = w as usize * 4 + 1;
    tokens.get(at).copied().unwrap_or(0)
}
