// The lines that the programs print: that of an answer, from what a run answered, that of an entry (`entry`), and where the
// farthest place is (`farthest`).
#![tactic(auto)]

pub mod entry;
pub mod farthest;
mod text;

ghost use Rattle.std.specs.Prelude.{◌≡◌, ◌++◌, ◌≤◌, ◌+◌, length};
ghost use Rattle.refusal_numbers.specs.Numbers.{answered_by};
ghost use Rattle.interpreter.specs.Numbers.{numbers, ran_to};
ghost use Rattle.interpreter.specs.declared.Ran.TheVariants.{Success};
ghost use Rattle.answer_line.specs.AnswerLine.{line_bytes, decimal, upper_word, flag_word, space, break};
ghost use Rattle.answer_line.specs.AnswerLine.{written_count, written_after};
ghost use Rattle.answer_line.specs.InternalPut.{Puts};

use columns::{State, Upper};
use interpreter::Ran;
use refusal_numbers::{Refuses, Told};
use text::{put, put_number, put_word};

// The room that every line has enough of.
pub const ROOM: usize = 64;

// Writes the line, and says how many bytes it has. A slice of fewer than 64 bytes is left as it is, and the answer is 0.
#[tactic(auto, unfolding(crate::specs::AnswerLine::written_count, crate::specs::AnswerLine::written_after, crate::specs::InternalPut::pasted))]
pub fn write<E: Refuses>(x: Result<Ran, E>, out: &mut [u8]) -> usize
    ensures value { result ≡ written_count (answered_by E.told (ran_to 0) x) (length out.old) }
    ensures out_after { out.new ≡ written_after (answered_by E.told (ran_to 0) x) out.old }
{
    if out.len() < ROOM {
        return 0;
    }
    put_answer(out, x)
}

// Puts the line of an answer, which has 58 bytes at most.
#[tactic(auto, unfolding(crate::specs::AnswerLine::decimal_to))]
fn put_answer<E: Refuses>(out: &mut [u8], x: Result<Ran, E>) -> usize
    requires { 58 ≤ length out.old }
    ensures { Puts out.old 0 (line_bytes (answered_by E.told (ran_to 0) x)) result out.new }
{
    match x {
        Ok(Ran::Success(read, s)) => put_success(out, read, s),
        Ok(Ran::Failure(farthest)) => put_line(out, b"failure ", farthest),
        Err(refusal) => match refusal.told() {
            Told::Number(number) => put_line(out, b"refused ", number as u32),
            Told::IllFormed(node) => put_line(out, b"refused 7 ", node as u32),
        },
    }
}

// Puts a line of a word and a number.
fn put_line(out: &mut [u8], word: &[u8], n: u32) -> usize
    requires { length word.now + 11 ≤ length out.old }
    ensures { Puts out.old 0 (word.now ++ decimal n ++ break) result out.new }
{
    let end = put_number(out, 0, word, n);
    put(out, end, b'\n')
}

// Puts the line of a success: tokens read, lower end, upper end, flag, farthest place.
fn put_success(out: &mut [u8], read: u32, s: State) -> usize
    requires { 58 ≤ length out.old }
    ensures { Puts out.old 0 (line_bytes (numbers 0 (Ok (Success read s)))) result out.new }
{
    let c = s.interval;
    let first = put_number(out, 0, b"success ", read);
    let second = put_number(out, first, b" ", c.lower);
    let third = put_upper(out, second, c.upper);
    let fourth = put_flag(out, third, s.flag);
    let fifth = put_number(out, fourth, b" ", s.farthest);
    put(out, fifth, b'\n')
}

// Puts a space and an upper end.
fn put_upper(out: &mut [u8], at: usize, h: Upper) -> usize
    requires { at + 11 ≤ length out.old }
    ensures puts { Puts out.old at (space ++ upper_word h) result out.new }
    ensures upper_bound { result ≤ at + 11 }
{
    match h {
        Upper::Endless => put_word(out, at, b" inf"),
        Upper::At(x) => put_number(out, at, b" ", x),
    }
}

// Puts a space and the flag.
fn put_flag(out: &mut [u8], at: usize, flag: bool) -> usize
    requires { at + 6 ≤ length out.old }
    ensures puts { Puts out.old at (space ++ flag_word flag) result out.new }
    ensures upper_bound { result ≤ at + 6 }
{
    put_word(out, at, if flag { b" set" } else { b" clear" })
}
