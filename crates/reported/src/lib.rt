// What the C interface reports of an answer: its number, and the words of a read, a written file, a scan, a run, a run that
// lists and a shown text. The exported functions hand on to these what a part answered.
#![tactic(auto)]

ghost use Rattle.std.specs.Prelude.{◌≡◌, ℕ, ◌+◌, ◌*◌};
ghost use Rattle.refusal_numbers.specs.Numbers.{answer_of, answered_by};
ghost use Rattle.interpreter.specs.Numbers.{ran_to, listed_to};
ghost use Rattle.shown_text.specs.Shown.{lies_at};
ghost use Rattle.reported.specs.Reported.{number, reported, contents_words, count_words, part_words};
ghost use Rattle.reported.specs.Reported.{count_numbers, success_words, RunReported, ListReported};

use columns::{State, Upper};
use grammar_file::Contents;
use interpreter::{Listed, Ran};
use refusal_numbers::{Refuses, Told};
use shown_text::ShownPart;

// Reports what a read of a grammar file answered: the five words where it was read.
pub fn report_read<E: Refuses>(x: Result<Contents, E>, res: &mut [usize; 5]) -> u32
    ensures value { result ≡ number (answered_by E.told (λ c. c) x) }
    ensures res_after { res.new ≡ reported contents_words (answered_by E.told (λ c. c) x) res.old }
{
    match x {
        Ok(c) => {
            *res = [
                c.nodes,
                c.rules,
                c.keywords,
                c.start as usize,
                c.mode as usize,
            ];
            0
        }
        Err(refused_read) => refusal_number(refused_read),
    }
}

// Reports what a write of a grammar file or a scan answered: the number of bytes that were written, or of tokens.
pub fn report_count<E: Refuses>(x: Result<usize, E>, res: &mut [usize; 1]) -> u32
    ensures value { result ≡ number (count_numbers E.told x) }
    ensures res_after { res.new ≡ reported count_words (count_numbers E.told x) res.old }
{
    match x {
        Ok(count) => {
            *res = [count];
            0
        }
        Err(refused_count) => refusal_number(refused_count),
    }
}

// Reports a verdict, for 7 with the node.
pub fn report_check<E: Refuses>(x: Result<(), E>) -> u32
    ensures { result ≡ number (answered_by E.told (λ u. u) x) }
{
    match x {
        Ok(()) => 0,
        Err(refused_check) => refusal_number(refused_check),
    }
}

// Reports what a run answered, wherever it began.
#[tactic(auto, using(crate::proofs::ReportLaws::run_refused))]
pub fn report<E: Refuses>(x: Result<Ran, E>, res: &mut [usize; 7]) -> u32
    ensures by_index { (place : ℕ) → result ≡ number (answered_by E.told (ran_to place) x) }
    ensures by_index_2 { (place : ℕ) → RunReported place res.old (answered_by E.told (ran_to place) x) res.new }
{
    match x {
        Ok(Ran::Success(read, s)) => {
            *res = success_words(read, s);
            0
        }
        Ok(Ran::Failure(farthest)) => {
            res[0] = 0;
            res[6] = farthest as usize;
            0
        }
        Err(refused_run) => refusal_number(refused_run),
    }
}

// Reports what a run that lists answered, wherever it began.
#[tactic(auto, using(crate::proofs::ListLaws::list_is_refused))]
pub fn report_list<E: Refuses>(x: Result<Listed, E>, res: &mut [usize; 8]) -> u32
    ensures by_index { (place : ℕ) → result ≡ number (answered_by E.told (listed_to place) x) }
    ensures by_index_2 { (place : ℕ) → ListReported place res.old (answered_by E.told (listed_to place) x) res.new }
{
    match x {
        Ok(Listed::Success(read, s, count)) => {
            let w = success_words(read, s);
            *res = [w[0], w[1], w[2], w[3], w[4], w[5], w[6], count];
            0
        }
        Ok(Listed::Failure(farthest)) => {
            res[0] = 0;
            res[6] = farthest as usize;
            0
        }
        Err(refused_list) => refusal_number(refused_list),
    }
}

// Reports where a shown text lies: its offset, its length and which slice, 0 for the report and 1 for the grammar file.
pub fn report_shown<E: Refuses>(x: Result<ShownPart, E>, res: &mut [usize; 3]) -> u32
    ensures value { result ≡ number (answered_by E.told lies_at x) }
    ensures res_after { res.new ≡ reported part_words (answered_by E.told lies_at x) res.old }
{
    match x {
        Ok(ShownPart::InReport { offset, length }) => {
            *res = [offset, length, 0];
            0
        }
        Ok(ShownPart::InFile { offset, length }) => {
            *res = [offset, length, 1];
            0
        }
        Err(refused_text) => refusal_number(refused_text),
    }
}

// The number of a refusal, for 7 with the node.
fn refusal_number<E: Refuses>(refusal: E) -> u32
    ensures { result ≡ number (answer_of {A = Unit} (E.told refusal)) }
{
    match refusal.told() {
        Told::Number(number) => number as u32,
        Told::IllFormed(node) => 7 + 65536 * (node as u32),
    }
}

// The words of a success.
fn success_words(read: u32, s: State) -> [usize; 7]
    ensures { result ≡ success_words read s.interval s.flag s.farthest }
{
    let lower = s.interval.lower as usize;
    let (upper, endless) = match s.interval.upper {
        Upper::At(h) => (h as usize, 0),
        Upper::Endless => (0, 1),
    };
    let flag = s.flag as usize;
    let farthest = s.farthest as usize;
    [1, read as usize, lower, upper, endless, flag, farthest]
}
