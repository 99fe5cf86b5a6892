// The text shown for a capture, and the numbers before it (02, Note 2).
#![tactic(auto)]

ghost use Rattle.std.specs.Prelude.{◌≡◌, ◌+◌, ◌-◌, ◌≤◌, ◌<◌, length, drop};
ghost use Rattle.file_fields.specs.Offsets.{offset_of, value_at};
ghost use Rattle.grammar_file.specs.File.{most_keywords};
ghost use Rattle.capture_checks.specs.Fourteen.{token_offset, token_end, last_token};
ghost use Rattle.shown_text.specs.Shown.{numbers, shown_answer, shown_bytes};

use capture_checks::{capture_wrong, token_end, token_offset};
use columns::Capture;
use file_fields::{offset_of, spelling_at};
use grammar_file::FIRST_KEYWORD;
use run_limits::tokens_wrong;
use table::Refusal;

// Where the text for a capture lies: so many bytes from an offset on.
#[derive(Clone, Copy, Debug, PartialEq, Eq)]
pub enum ShownPart {
    InReport { offset: usize, length: usize },
    InFile { offset: usize, length: usize },
}

// Where a shown text lies, or the first check that fails: 1 to 5 of the file, 8 of the report, 11 of the tokens, then 14.
#[tactic(auto, using(crate::proofs::PartLaws::rules_are, crate::proofs::PartLaws::from_file, crate::proofs::PartLaws::reads, crate::proofs::PartLaws::ordered, crate::proofs::PartLaws::from_report), unfolding(crate::specs::Shown::shown_answer, report_checks::specs::FirstChecks::first_answer))]
pub fn shown(
    file: &[u8],
    report: &[u8],
    tokens: &[u32],
    capture: Capture,
) -> Result<ShownPart, Refusal>
    ensures { numbers result ≡ shown_answer file.now report.now tokens.now capture }
{
    let contents = grammar_file::check(file)?;
    if report_checks::refused(report) {
        return Err(Refusal::Report);
    }
    if tokens_wrong(tokens) {
        return Err(Refusal::Tokens);
    }
    if capture_wrong(contents.rules, report.len(), tokens, capture) {
        return Err(Refusal::Capture);
    }
    if capture.first == capture.after {
        return Ok(in_file(file, contents.keywords, capture.rule));
    }
    Ok(in_report(tokens, capture))
}

// The text itself, as a part of the report or of the grammar file; empty where the call is turned down.
#[tactic(auto, using(crate::proofs::PartLaws::report_inside, crate::proofs::PartLaws::report_cut, crate::proofs::PartLaws::file_inside, crate::proofs::PartLaws::file_cut))]
pub fn text<'a>(file: &'a [u8], report: &'a [u8], tokens: &[u32], capture: Capture) -> &'a [u8]
    ensures { result.now ≡ shown_bytes file.now report.now tokens.now capture }
{
    match shown(file, report, tokens, capture) {
        Ok(ShownPart::InReport { offset, length }) => &report[offset..offset + length],
        Ok(ShownPart::InFile { offset, length }) => &file[offset..offset + length],
        Err(_) => &[],
    }
}

// The part of the report that the tokens of a capture take.
fn in_report(tokens: &[u32], capture: Capture) -> ShownPart
    requires { (capture.first < capture.after)
        × (token_offset tokens.now capture.first ≤ token_end tokens.now (last_token capture)) }
    ensures { result
        ≡ ShownPart.InReport (token_offset tokens.now capture.first)
        (token_end tokens.now (last_token capture) - token_offset tokens.now capture.first) }
{
    let last = capture.after - 1;
    let offset = token_offset(tokens, capture.first) as usize;
    let end = token_end(tokens, last);
    ShownPart::InReport {
        offset,
        length: end - offset,
    }
}

// The part of the file that a rule's name takes: the rule's field stands behind the keywords and the rules before it.
fn in_file(file: &[u8], keywords: usize, rule: u32) -> ShownPart
    requires { keywords ≤ most_keywords }
    ensures { result
        ≡ ShownPart.InFile (offset_of file.now 4 (keywords + rule) + 5)
        (length (drop 2 (value_at file.now (offset_of file.now 4 (keywords + rule))))) }
{
    let at = offset_of(file, FIRST_KEYWORD, keywords + rule as usize);
    let name = spelling_at(file, at, 2);
    ShownPart::InFile {
        offset: at + 5,
        length: name.len(),
    }
}
