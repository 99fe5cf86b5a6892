// The whole scan: the words of all tokens of a report (numbers 1 to 5 and 8 to 10).
#![tactic(auto)]

mod index;

ghost use Rattle.std.specs.Prelude.{◌≡◌, ◌+◌, ◌*◌, ◌≤◌, length};
ghost use Rattle.table.specs.Answer.{afterwards};
ghost use Rattle.file_fields.specs.Offsets.{keywords_from};
ghost use Rattle.grammar_file.specs.File.{most_keywords};
ghost use Rattle.report_checks.specs.Report.{most_bytes};
ghost use Rattle.scanner.specs.Tokens.{token_of};
ghost use Rattle.token_words.specs.Places.{places};
ghost use Rattle.token_words.specs.Scan.{token_words, words_of, scan_tokens, scan_answer};
ghost use Rattle.token_words.specs.Numbers.{numbers as scan_numbers};
ghost use Rattle.token_words.specs.InternalScan.{written, Measured};

use index::{Index, KEYS, KEYWORDS, link, starts};
use places::{Place, Position, bytes_at, find};
use report_checks::first_checks;
use table::{Refusal, terminals};

// Writes the tokens of a report by a grammar file's keywords, four words each, and answers how many there are, or the
// first check that fails.
pub fn scan(file: &[u8], report: &[u8], tokens: &mut [u32]) -> Result<usize, Refusal>
    ensures result_value { scan_numbers result ≡ scan_answer file.now report.now (length tokens.old) }
    ensures tokens_after { tokens.new
        ≡ afterwards (scan_numbers result) (words_of (scan_tokens file.now report.now))
        tokens.old }
{
    let keywords = first_checks(file, report)?;
    let count = measure(report)?;
    if count > table::TOKENS || tokens.len() / 4 < count {
        return Err(Refusal::TokenRoom);
    }
    write(file, keywords, report, tokens);
    Ok(count)
}

// How many tokens a report has, without their terminals, or number 9.
fn measure(report: &[u8]) -> Result<usize, Refusal>
    requires { length report.now ≤ most_bytes }
    ensures { Measured report.now result }
{
    let mut n = 0;
    let mut next = find(report, Position::START);
    while let Some(place) = next.found {
        if table::LAST_COLUMN < place.column {
            return Err(Refusal::Column);
        }
        n += 1;
        next = find(report, next.reached);
    }
    Ok(n)
}

// Writes the tokens of a report.
fn write(file: &[u8], keywords: usize, report: &[u8], tokens: &mut [u32])
    requires keywords_le_most_keywords { keywords ≤ most_keywords }
    requires report_len_bound { length report.now ≤ most_bytes }
    requires report_in_bounds { length (places report.now) * 4 ≤ length tokens.old }
    ensures { tokens.new ≡ written file.now keywords report.now tokens.old }
{
    let mut offsets = [0; KEYWORDS];
    starts(file, keywords, &mut offsets);
    let mut firsts = [None; KEYS];
    let mut nexts = [None; KEYWORDS];
    link(file, keywords, &offsets, &mut firsts, &mut nexts);
    let index = Index {
        file,
        count: keywords,
        offsets: &offsets,
        firsts: &firsts,
        nexts: &nexts,
    };
    let mut to = 0;
    let mut next = find(report, Position::START);
    while let Some(place) = next.found {
        tokens[to..to + 4].copy_from_slice(&words_at(&index, report, place));
        to += 4;
        next = find(report, next.reached);
    }
}

// The words of the token at a place.
#[tactic(auto, unfolding(scanner::specs::Tokens::terminal_at))]
fn words_at(index: &Index, report: &[u8], place: Place) -> [u32; 4]
    requires short { length report.now ≤ most_bytes }
    requires inside { place.offset + place.length ≤ length report.now }
    ensures { result ≡ token_words (token_of (keywords_from index.now.file.now index.now.count) report.now place) }
{
    let terminal = if place.ends {
        terminals::LINE_END
    } else {
        index.terminal(bytes_at(report, place))
    };
    [
        terminal,
        place.column,
        place.offset as u32,
        place.length as u32,
    ]
}
