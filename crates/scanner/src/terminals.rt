// The terminal of a spelling: a keyword's, a number's or another's.
ghost use Rattle.std.specs.Prelude.{◌≡◌, ◌≤◌};
ghost use Rattle.file_fields.specs.Offsets.{keywords_from};
ghost use Rattle.grammar_file.specs.File.{most_keywords};
ghost use Rattle.scanner.specs.Tokens.{terminal_from};

use file_fields::{next_at, value_at};
use number_spelling::{keyword_terminal, no_keyword};
use spellings::same;

// 3 + k where a spelling equals keyword k of count, else 0 for a number, else 1.
pub(crate) fn terminal(file: &[u8], count: usize, s: &[u8]) -> u32
    requires { count ≤ most_keywords }
    ensures { result ≡ terminal_from 0 (keywords_from file.now count) s.now }
{
    let mut at = grammar_file::FIRST_KEYWORD;
    for k in 0..count {
        if same(value_at(file, at), s) {
            return keyword_terminal(k as u8);
        }
        at = next_at(file, at);
    }
    no_keyword(s)
}
