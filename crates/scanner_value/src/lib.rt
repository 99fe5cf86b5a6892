// The scanner value: a report with the position reached, and thin functions over it.
#![tactic(auto)]

ghost use Rattle.std.specs.Prelude.{◌≡◌, false};
ghost use Rattle.scanner.specs.Steps.{position, numbers, step_answer, standing};
ghost use Rattle.scanner_value.specs.Nth.{nth_answer};

use places::Position;
use scanner::{Token, next_token};
use table::Refusal;

#[derive(Clone, Copy)]
pub struct Scanner<'a> {
    pub report: &'a [u8],
    pub position: Position,
}

impl<'a> Scanner<'a> {
    // A value at the start of a report.
    pub fn new(report: &'a [u8]) -> Scanner<'a>
        ensures { (result.report ≡ report.entry) × (result.position ≡ position 0 0 false) }
    {
        Scanner {
            report,
            position: Position::START,
        }
    }

    // Hands out the next token; a refused call leaves the value unchanged.
    pub fn next(&mut self, file: &[u8]) -> Result<Option<Token>, Refusal>
        ensures result_value { numbers result
            ≡ step_answer file.now self.old.report.now
            self.old.position }
        ensures mark_after { self.new.position
            ≡ standing (numbers result) self.old.report.now
            self.old.position }
        ensures report_unchanged { self.new.report ≡ self.old.report }
    {
        let step = next_token(file, self.report, self.position);
        self.position = step.reached;
        step.handed
    }
}

// What step n of a new value hands out, counted from 0: plain parameters, so that a caller needs no walk.
pub fn nth(file: &[u8], report: &[u8], n: usize) -> Result<Option<Token>, Refusal>
    ensures { numbers result ≡ nth_answer file.now report.now n (position 0 0 false) }
{
    let mut scanner = Scanner::new(report);
    for _ in 0..n {
        let _ = scanner.next(file);
    }
    scanner.next(file)
}
