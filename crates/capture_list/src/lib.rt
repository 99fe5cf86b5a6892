// The list of captures while a grammar is walked, four words a place: the count of captures, whether it is put back, whether
// nothing is listed, one capture put at its place, and the words behind the list.
#![tactic(auto)]

ghost use Rattle.std.specs.Prelude.{◌≡◌};
ghost use Rattle.capture_list.specs.Put.{one_more, puts_back, quiet_in, hushed, capture_put, cleared_from};

use columns::{Capture, Outcome};
use table::Kind;

// Where the count stops: far above the places of any list. Rules can be so nested that there are more
// captures than a usize counts. From there on nothing is listed.
pub const MOST: usize = 4611686018427387904;

// The counts of captures at a point of a walk: those around it, and those so far.
#[derive(Clone, Copy, Debug, PartialEq, Eq)]
pub struct Counts {
    pub around: usize,
    pub so_far: usize,
}

// One capture more.
pub fn more(n: usize) -> usize
    ensures { result ≡ one_more n }
{
    n.saturating_add(1).min(MOST)
}

// The functions below take a kind by its word: their promises are for every word, and `Kind` is narrower.

// Whether the captures of what was walked first in a node of a kind are put back: where it failed, and in a not.
pub fn puts_back(kind: u16, x: Outcome) -> bool
    ensures { result ≡ puts_back kind x }
{
    match x {
        Outcome::Failure(_) => true,
        Outcome::Success(_) => kind == Kind::Not as u16,
    }
}

// Whether nothing is listed inside a node of a kind, with so many captures so far.
pub fn quiet(kind: u16, n: usize) -> bool
    ensures { result ≡ quiet_in kind n }
{
    n == MOST || kind == Kind::Not as u16
}

// Inside a not nothing is listed: the count is where it stops.
pub fn hush(counts: &mut Counts, kind: u16)
    ensures { counts.new ≡ hushed kind counts.old }
{
    if kind == Kind::Not as u16 {
        counts.so_far = MOST;
    }
}

// Writes a capture at its place in the list, if there is such a place.
#[tactic(auto, unfolding(crate::specs::Put::capture_put))]
pub fn put(list: &mut [u32], n: usize, c: Capture)
    ensures { list.new ≡ capture_put n c list.old }
{
    if n < list.len() / 4 {
        let at = n * 4;
        list[at] = c.rule;
        list[at + 1] = c.first;
        list[at + 2] = c.after;
        list[at + 3] = c.around;
    }
}

// Writes 0 from an index on.
#[tactic(auto, unfolding(crate::specs::Put::cleared_from))]
pub fn clear(words: &mut [u32], from: usize)
    ensures { words.new ≡ cleared_from from words.old }
{
    if from < words.len() {
        words[from..].fill(0);
    }
}
