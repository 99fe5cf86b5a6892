// The checks that a scan and a step begin with: 1 to 5 of the grammar file and 8 of the report.
#![tactic(auto)]

ghost use Rattle.std.specs.Prelude.{◌≡◌};
ghost use Rattle.byte_class.specs.Bytes.{class_of};
ghost use Rattle.report_checks.specs.Report.{refused_class, fails8};
ghost use Rattle.report_checks.specs.FirstChecks.{Checks};

use byte_class::{Class, class_of};
use table::Refusal;

// The most bytes of a report.
const BYTES: usize = 65535;

// How many keywords a grammar file has, or the first of 1 to 5 of the file and 8 of a report that fails.
#[tactic(auto, using(crate::proofs::CheckLaws::short_report), unfolding(crate::specs::FirstChecks::first_answer))]
pub fn first_checks(file: &[u8], report: &[u8]) -> Result<usize, Refusal>
    ensures { Checks file.now report.now result }
{
    let contents = grammar_file::check(file)?;
    if refused(report) {
        return Err(Refusal::Report);
    }
    Ok(contents.keywords)
}

// Number 8 of a report.
#[tactic(auto, using(table::proofs::Every::every_next), unfolding(crate::specs::Report::fails8, table::specs::Every::every))]
pub fn refused(report: &[u8]) -> bool
    ensures { result ≡ fails8 report.now }
{
    if report.len() > BYTES {
        return true;
    }
    // Each byte is asked, many at a time: `any`, which stops at the first, takes four times the instructions.
    let mut clean = true;
    for b in report {
        clean &= !is_refused(*b);
    }
    !clean
}

fn is_refused(b: u8) -> bool
    ensures { result ≡ refused_class (class_of b) }
{
    class_of(b) == Class::Refused
}
