// The step of the report scanner: from a position in a report to its next token (numbers 1 to 5, 8 and 9).
#![tactic(auto)]

mod terminals;

ghost use Rattle.std.specs.Prelude.{◌≡◌, ◌+◌, ◌≤◌, length};
ghost use Rattle.file_fields.specs.Offsets.{keywords_from};
ghost use Rattle.grammar_file.specs.File.{most_keywords};
ghost use Rattle.report_checks.specs.Report.{most_bytes};
ghost use Rattle.scanner.specs.Tokens.{token_of};
ghost use Rattle.scanner.specs.Steps.{step_answer, standing};
ghost use Rattle.scanner.specs.Steps.{numbers as step_numbers};
ghost use Rattle.scanner.specs.InternalFind.{Stepped};

use places::{Move, Place, Position, bytes_at, find};
use report_checks::first_checks;
use table::Refusal;
use terminals::terminal;

// The last column of a step.
const LAST_STEP: u32 = 524280;

#[derive(Clone, Copy, Debug, PartialEq, Eq)]
pub struct Token {
    pub terminal: u32,
    pub column: u32,
    pub offset: u32,
    pub length: u32,
}

// What a step hands out, a token or none, or why it is refused, and the position that it reaches.
#[derive(Clone, Copy, Debug, PartialEq, Eq)]
pub struct Step {
    pub handed: Result<Option<Token>, Refusal>,
    pub reached: Position,
}

// The next token of a report from a position on, and the position behind it; a refused step stays where it is.
#[tactic(auto, using(crate::proofs::StepLaws::turned_stands))]
pub fn next_token(file: &[u8], report: &[u8], from: Position) -> Step
    ensures handed_value { step_numbers result.handed ≡ step_answer file.now report.now from }
    ensures result_value { result.reached ≡ standing (step_numbers result.handed) report.now from }
{
    match token_from(file, report, from) {
        Ok((token, reached)) => Step {
            handed: Ok(token),
            reached,
        },
        Err(refusal) => Step {
            handed: Err(refusal),
            reached: from,
        },
    }
}

// The next token from a position on, or none, and the position behind it.
#[tactic(auto, using(crate::proofs::StepLaws::step_first))]
fn token_from(
    file: &[u8],
    report: &[u8],
    from: Position,
) -> Result<(Option<Token>, Position), Refusal>
    ensures { Stepped file.now report.now from result }
{
    let keywords = first_checks(file, report)?;
    if report.len() < from.offset || LAST_STEP < from.column {
        return Err(Refusal::Report);
    }
    let Move { found, reached } = find(report, from);
    let Some(place) = found else {
        return Ok((None, reached));
    };
    if table::LAST_COLUMN < place.column {
        return Err(Refusal::Column);
    }
    let token = token_at(file, keywords, report, place);
    Ok((Some(token), reached))
}

// The token at a place.
#[tactic(auto, unfolding(crate::specs::Tokens::terminal_at))]
fn token_at(file: &[u8], keywords: usize, report: &[u8], place: Place) -> Token
    requires few { keywords ≤ most_keywords }
    requires short { length report.now ≤ most_bytes }
    requires inside { place.offset + place.length ≤ length report.now }
    ensures { result ≡ token_of (keywords_from file.now keywords) report.now place }
{
    let terminal = if place.ends {
        table::terminals::LINE_END
    } else {
        terminal(file, keywords, bytes_at(report, place))
    };
    Token {
        terminal,
        column: place.column,
        offset: place.offset as u32,
        length: place.length as u32,
    }
}
