// The rules of keywords and rule names: number 2.
#![tactic(auto)]

ghost use Rattle.std.specs.Prelude.{◌≡◌, ℕ, not, ◌<◌, Bool, List, [], length, get_or};
ghost use Rattle.std.specs.Fn.{FnReturnsAt};
ghost use Rattle.table.specs.Every.{every};
ghost use Rattle.byte_class.specs.Bytes.{is_single};
ghost use Rattle.spellings.specs.Spellings.{visible, spelled as is_spelled, single_alone, same_bytes};
ghost use Rattle.spellings.specs.Spellings.{distinct as are_distinct, right_spellings};
ghost use Rattle.file_fields.specs.Offsets.{spellings_from};
ghost use Rattle.spellings.specs.Keys.{key_of};

use byte_class::{Class, class_of};
use file_fields::{Group, next_at, spelling_at};

// How many keys there are.
pub const KEYS: usize = 4096;

// What a byte counts in a key, by its index: powers of 153, modulo 256.
const WEIGHTS: [u8; 32] = [
    1, 153, 113, 137, 225, 121, 81, 105, 193, 89, 49, 73, 161, 57, 17, 41, 129, 25, 241, 9, 97,
    249, 209, 233, 65, 217, 177, 201, 33, 185, 145, 169,
];

// The key of a spelling: spellings with different keys differ.
pub fn key(s: &[u8]) -> usize
    ensures value { result ≡ key_of s.now }
    ensures upper_bound { result < 4096 }
{
    let mut sum = 0;
    for (b, weight) in s.iter().zip(&WEIGHTS) {
        sum += u32::from(*b) * u32::from(*weight);
    }
    sum as usize % KEYS
}

// Whether two spellings are the same: the lengths first, then the last bytes, since keywords of one list often differ there
// alone, then all bytes, without a way out of the loop.
pub fn same(s: &[u8], t: &[u8]) -> bool
    ensures { result ≡ same_bytes s.now t.now }
{
    if s.len() != t.len() {
        return false;
    }
    if s.last() != t.last() {
        return false;
    }
    let mut equal = true;
    for (a, b) in s.iter().zip(t) {
        equal &= a == b;
    }
    equal
}

// 1 to 32 bytes, each of them visible.
#[tactic(auto, using(table::proofs::Every::every_next), unfolding(crate::specs::Spellings::spelled, table::specs::Every::every))]
fn spelled(s: &[u8]) -> bool
    ensures { result ≡ is_spelled s.now }
{
    if s.is_empty() || s.len() > 32 {
        return false;
    }
    let mut right = true;
    for b in s {
        right &= is_visible(*b);
    }
    right
}

fn is_visible(b: u8) -> bool
    ensures { result ≡ visible b }
{
    b > 32 && b != 127
}

// None of the bytes is a single byte, or there is one byte only.
#[tactic(auto, using(table::proofs::Every::every_next), unfolding(crate::specs::Spellings::single_alone, table::specs::Every::every))]
fn single_alone(s: &[u8]) -> bool
    ensures { result ≡ single_alone s.now }
{
    if s.len() == 1 {
        return true;
    }
    let mut none = true;
    for b in s {
        none &= !is_single(*b);
    }
    none
}

#[tactic(auto, unfolding(byte_class::specs::Bytes::is_single, byte_class::specs::Bytes::is_continuation, byte_class::specs::Bytes::class_of))]
fn is_single(b: u8) -> bool
    ensures { result ≡ is_single b }
{
    class_of(b) == Class::Single
}

// Whether the spellings of fields are right and distinct.
#[tactic(auto, unfolding(crate::specs::Spellings::right_spellings))]
pub fn right_spellings(file: &[u8], group: Group, skip: usize) -> bool
    ensures { result ≡ right_spellings (spellings_from file.now group.at group.count skip) }
{
    all_spelled(file, group, skip) && distinct(file, group, skip)
}

// Whether a test holds of each of the spellings of fields.
#[tactic(auto, unfolding(table::specs::Every::every, file_fields::specs::Offsets::offset_of))]
fn each_spelling<F: Fn(&[u8]) -> bool>(file: &[u8], group: Group, skip: usize, test: F) -> bool
    requires { F.IsAlwaysCallable test }
    ensures { (p : List ℕ → Bool) → ((s : List ℕ) (b : Bool) → FnReturnsAt F.Fn test s b → b ≡ p s)
        → result ≡ every group.count (λ i. p (get_or (spellings_from file.now group.at group.count skip) i [])) }
{
    let mut at = group.at;
    for _ in 0..group.count {
        if !test(spelling_at(file, at, skip)) {
            return false;
        }
        at = next_at(file, at);
    }
    true
}

fn all_spelled(file: &[u8], group: Group, skip: usize) -> bool
    ensures { result
        ≡ every (length (spellings_from file.now group.at group.count skip))
        (λ i. is_spelled (get_or (spellings_from file.now group.at group.count skip) i [])) }
{
    each_spelling(file, group, skip, spelled)
}

pub fn singles_alone(file: &[u8], group: Group) -> bool
    ensures { result
        ≡ every (length (spellings_from file.now group.at group.count 0))
        (λ i. single_alone (get_or (spellings_from file.now group.at group.count 0) i [])) }
{
    each_spelling(file, group, 0, single_alone)
}

// Each spelling differs from those before it. A key that none before it has tells so at once.
#[tactic(auto, unfolding(crate::specs::Spellings::distinct))]
fn distinct(file: &[u8], group: Group, skip: usize) -> bool
    ensures { result ≡ are_distinct (spellings_from file.now group.at group.count skip) }
{
    let mut met = [false; KEYS]; // a fixed array: there is no heap here
    let mut at = group.at;
    for j in 0..group.count {
        let s = spelling_at(file, at, skip);
        let h = key(s);
        let before = Group {
            at: group.at,
            count: j,
        };
        if met[h] && !unlike(file, before, skip, s) {
            return false;
        }
        met[h] = true;
        at = next_at(file, at);
    }
    true
}

// Whether a spelling differs from those of fields.
fn unlike(file: &[u8], group: Group, skip: usize, s: &[u8]) -> bool
    ensures { result
        ≡ every group.count
        (λ i.
        not (same_bytes (get_or (spellings_from file.now group.at group.count skip) i []) s.now)) }
{
    each_spelling(file, group, skip, |t| !same(t, s))
}
