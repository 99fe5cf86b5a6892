// An index of the keywords of a grammar file by the keys of their spellings.
ghost use Rattle.std.specs.Prelude.{◌≡◌, ◌≤◌, length, replicate};
ghost use Rattle.file_fields.specs.Offsets.{keywords_from};
ghost use Rattle.grammar_file.specs.File.{most_keywords};
ghost use Rattle.scanner.specs.Tokens.{terminal_from};
ghost use Rattle.token_words.specs.InternalIndex.{Starts, Linked, Indexed};

use file_fields::{next_at, value_at};
use number_spelling::{keyword_terminal, no_keyword};
use spellings::{key, same};

// The most keywords of a grammar file.
pub(crate) const KEYWORDS: usize = 253;

// As many keys as there are.
pub(crate) const KEYS: usize = 4096;

// The first keywords of a file: where each stands, the first one of each key, and behind each the next one of its key. The
// three are lent: an index that owns them was measured, and takes a fifth longer to scan an empty report, for its copy.
#[derive(Clone, Copy)]
pub(crate) struct Index<'a> {
    pub(crate) file: &'a [u8],
    pub(crate) count: usize,
    pub(crate) offsets: &'a [usize],
    pub(crate) firsts: &'a [Option<u8>],
    pub(crate) nexts: &'a [Option<u8>],
    ghost indexed: { Indexed file.now count offsets.now firsts.now nexts.now },
}

impl<'a> Index<'a> {
    // 3 + k where a spelling equals keyword k, else 0 for a number, else 1.
    pub(crate) fn terminal(&self, s: &[u8]) -> u32
        ensures { result ≡ terminal_from 0 (keywords_from self.now.file.now self.now.count) s.now }
    {
        let mut next = self.firsts[key(s)];
        while let Some(k) = next {
            let at = self.offsets[usize::from(k)];
            if same(value_at(self.file, at), s) {
                return keyword_terminal(k);
            }
            next = self.nexts[usize::from(k)];
        }
        no_keyword(s)
    }
}

// Where each of so many keywords stands. The array is lent, so that none is copied.
pub(crate) fn starts(file: &[u8], count: usize, offsets: &mut [usize; KEYWORDS])
    requires { count ≤ most_keywords }
    ensures { Starts file.now count offsets.new }
{
    let mut at = grammar_file::FIRST_KEYWORD;
    for k in 0..count {
        offsets[k] = at;
        at = next_at(file, at);
    }
}

// The first keyword of each key, and behind each keyword the next one of its key, from the last keyword to the first.
pub(crate) fn link(
    file: &[u8],
    count: usize,
    offsets: &[usize],
    firsts: &mut [Option<u8>],
    nexts: &mut [Option<u8>],
)
    requires few { count ≤ most_keywords }
    requires starts { Starts file.now count offsets.now }
    requires none { firsts.old ≡ replicate 4096 None }
    requires room { count ≤ length nexts.old }
    ensures { Linked (keywords_from file.now count) 0 firsts.new nexts.new }
{
    for k in (0..count).rev() {
        let x = key(value_at(file, offsets[k]));
        nexts[k] = firsts[x];
        firsts[x] = Some(k as u8);
    }
}
