// Where the farthest place is: the line that the program `entries` prints below that of the run.
ghost use Rattle.std.specs.Prelude.{◌≡◌, false, ◌≤◌, length};
ghost use Rattle.clauses.specs.Limits.{fails11};
ghost use Rattle.refusal_numbers.specs.Numbers.{answered_by};
ghost use Rattle.interpreter.specs.Numbers.{ran_to};
ghost use Rattle.answer_line.specs.FarthestLine.{place_bytes, said_bytes, farthest_count, farthest_after};
ghost use Rattle.answer_line.specs.InternalPut.{Puts};

use crate::ROOM;
use crate::entry::{column_at, line_at};
use crate::text::{put, put_number, put_word};
use interpreter::Ran;
use refusal_numbers::Refuses;

// Writes the line, and says how many bytes it has: none where the run read every token or was refused, or where 8 refuses the
// report or 11 the tokens. A slice of fewer than 64 bytes is left as it is, and the answer is 0.
#[tactic(auto, unfolding(crate::specs::FarthestLine::farthest_bytes, crate::specs::FarthestLine::farthest_count, crate::specs::FarthestLine::farthest_after, crate::specs::InternalPut::pasted))]
pub fn write<E: Refuses>(report: &[u8], tokens: &[u32], x: Result<Ran, E>, out: &mut [u8]) -> usize
    ensures value { result ≡ farthest_count report.now tokens.now (answered_by E.told (ran_to 0) x) (length out.old) }
    ensures out_after { out.new ≡ farthest_after report.now tokens.now (answered_by E.told (ran_to 0) x) out.old }
{
    if out.len() < ROOM || report_checks::refused(report) || run_limits::tokens_wrong(tokens) {
        return 0;
    }
    put_said(out, report, tokens, x)
}

// Puts the line for an answer.
#[tactic(auto, using(crate::proofs::PutLaws::put_none))]
fn put_said<E: Refuses>(out: &mut [u8], report: &[u8], tokens: &[u32], x: Result<Ran, E>) -> usize
    requires { (64 ≤ length out.old) × (length report.now ≤ 65535) × (fails11 tokens.now ≡ false) }
    ensures { Puts out.old 0 (said_bytes report.now tokens.now (answered_by E.told (ran_to 0) x)) result out.new }
{
    match x {
        Ok(Ran::Success(read, s)) => {
            if (read as usize) < tokens.len() / 4 {
                put_place(out, report, tokens, s.farthest)
            } else {
                0
            }
        }
        Ok(Ran::Failure(farthest)) => put_place(out, report, tokens, farthest),
        Err(_) => 0,
    }
}

// Puts the line for a place.
fn put_place(out: &mut [u8], report: &[u8], tokens: &[u32], w: u32) -> usize
    requires { (64 ≤ length out.old) × (length report.now ≤ 65535) × (fails11 tokens.now ≡ false) }
    ensures { Puts out.old 0 (place_bytes report.now tokens.now w) result out.new }
{
    if tokens.len() / 4 <= w as usize {
        return put_word(out, 0, b"farthest end\n");
    }
    let offset = tokens[w as usize * 4 + 2];
    let line = line_at(report, (offset as usize).min(report.len()));
    let column = column_at(tokens, w);
    let first = put_number(out, 0, b"farthest ", line);
    let second = put_number(out, first, b":", column + 1);
    put(out, second, b'\n')
}
