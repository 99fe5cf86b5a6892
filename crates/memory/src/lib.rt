// Outcomes remembered in a lent slice (02, Note 8), a slot of twelve words each: looked up by all that an outcome hangs on,
// and kept in place of what the slot held. A slice of fewer words has no slot: nothing is kept in it, and nothing found.
#![tactic(auto)]

ghost use Rattle.std.specs.Prelude.{◌≡◌, ◌+◌, ◌≤◌, length};
ghost use Rattle.memory.specs.Memory.{slot_length, end_word, marks, slot_of, kept_for, upper_from, outcome_at};
ghost use Rattle.memory.specs.Memory.{put_words, key_words, outcome_words, recalled, kept};

use columns::{Interval, Outcome, State, Upper};

// The words of a slot. It is named by where it begins in the lent words, since what is promised speaks of all of those; a
// struct for a node, a mode and a state would be made at each call and taken apart in each function, so it is no plainer.
pub const SLOT: usize = 12;

// The outcome that is kept for a node in a mode from a state, whatever the state's farthest place. Its own farthest place is
// that of what was tried inside.
#[tactic(auto, unfolding(crate::specs::Memory::recalled))]
pub fn look(memory: &[u32], node: u16, mode: u16, s: State) -> Option<Outcome>
    ensures { result ≡ recalled memory.now node mode s.place s.interval s.flag }
{
    if memory.len() < SLOT {
        return None;
    }
    let i = slot(memory, node, mode, s);
    if kept_for(memory, i, node, mode, s) {
        outcome_at(memory, i)
    } else {
        None
    }
}

// Keeps an outcome of a node in a mode from a state.
#[tactic(auto, using(crate::proofs::SlotLaws::length_put, crate::proofs::SlotLaws::kept_in), unfolding(crate::specs::Memory::kept))]
pub fn keep(memory: &mut [u32], node: u16, mode: u16, s: State, x: Outcome)
    ensures { memory.new ≡ kept memory.old node mode s.place s.interval s.flag x }
{
    if memory.len() < SLOT {
        return;
    }
    let i = slot(memory, node, mode, s);
    put_key(memory, i, node, mode, s);
    put_outcome(memory, i, x);
}

// Where the slot for a node in a mode from a state begins.
#[tactic(auto, using(crate::proofs::SlotLaws::slot_fits, crate::proofs::SlotLaws::in_list), unfolding(crate::specs::Memory::slot_of))]
fn slot(memory: &[u32], node: u16, mode: u16, s: State) -> usize
    requires { slot_length ≤ length memory.now }
    ensures slot { result ≡ slot_of memory.now node mode s.place s.interval s.flag }
    ensures room { result + slot_length ≤ length memory.now }
{
    let c = s.interval;
    let h = c.upper;
    let slots = memory.len() / SLOT;
    let spread = (node as usize)
        + (mode as usize) * 613
        + (s.place as usize) * 3877
        + (marks_of(s.flag, h) as usize) * 257
        + (c.lower as usize) * 7919
        + (end_word(h) as usize) * 31337;
    (spread % slots) * SLOT
}

// An upper end as a word; 0 if there is none.
fn end_word(h: Upper) -> u32
    ensures { result ≡ end_word h }
{
    match h {
        Upper::At(x) => x,
        Upper::Endless => 0,
    }
}

// The flag and whether there is no upper end, as one word.
fn marks_of(flag: bool, h: Upper) -> u32
    ensures { result ≡ marks flag h }
{
    match h {
        Upper::At(_) => flag as u32,
        Upper::Endless => flag as u32 + 2,
    }
}

// Whether a slot is kept for a node in a mode from a state.
#[tactic(auto, unfolding(crate::specs::Memory::kept_for, crate::specs::Memory::has_words))]
fn kept_for(memory: &[u32], i: usize, node: u16, mode: u16, s: State) -> bool
    requires { i + slot_length ≤ length memory.now }
    ensures { result ≡ kept_for memory.now i node mode s.place s.interval s.flag }
{
    let c = s.interval;
    let h = c.upper;
    memory[i] == node as u32
        && memory[i + 1] == mode as u32
        && memory[i + 2] == s.place
        && memory[i + 3] == marks_of(s.flag, h)
        && memory[i + 4] == c.lower
        && memory[i + 5] == end_word(h)
}

// The outcome in a slot: 0 for nothing, 1 for a failure, else a success.
#[tactic(auto, unfolding(crate::specs::Memory::outcome_at))]
fn outcome_at(memory: &[u32], i: usize) -> Option<Outcome>
    requires { i + slot_length ≤ length memory.now }
    ensures { result ≡ outcome_at memory.now i }
{
    let farthest = memory[i + 7];
    match memory[i + 6] {
        0 => None,
        1 => Some(Outcome::Failure(farthest)),
        _ => {
            let interval = Interval {
                lower: memory[i + 10],
                upper: upper_from(memory[i + 9], memory[i + 11]),
            };
            Some(Outcome::Success(State {
                place: memory[i + 8],
                farthest,
                interval,
                flag: memory[i + 9] % 2 == 1,
            }))
        }
    }
}

// The upper end that marks and a word stand for.
fn upper_from(marks: u32, word: u32) -> Upper
    ensures { result ≡ upper_from marks word }
{
    if marks < 2 {
        Upper::At(word)
    } else {
        Upper::Endless
    }
}

// Writes what an outcome hangs on.
#[tactic(auto, unfolding(crate::specs::Memory::put_words))]
fn put_key(memory: &mut [u32], i: usize, node: u16, mode: u16, s: State)
    requires { i + slot_length ≤ length memory.old }
    ensures { memory.new ≡ put_words memory.old i (key_words node mode s.place s.interval s.flag) }
{
    let c = s.interval;
    let h = c.upper;
    memory[i] = node as u32;
    memory[i + 1] = mode as u32;
    memory[i + 2] = s.place;
    memory[i + 3] = marks_of(s.flag, h);
    memory[i + 4] = c.lower;
    memory[i + 5] = end_word(h);
}

// Writes an outcome behind what it hangs on.
#[tactic(auto, unfolding(crate::specs::Memory::put_words))]
fn put_outcome(memory: &mut [u32], i: usize, x: Outcome)
    requires { i + slot_length ≤ length memory.old }
    ensures { memory.new ≡ put_words memory.old (i + 6) (outcome_words x) }
{
    match x {
        Outcome::Failure(farthest) => {
            memory[i + 6] = 1;
            memory[i + 7] = farthest;
        }
        Outcome::Success(u) => {
            let c = u.interval;
            let h = c.upper;
            memory[i + 6] = 2;
            memory[i + 7] = u.farthest;
            memory[i + 8] = u.place;
            memory[i + 9] = marks_of(u.flag, h);
            memory[i + 10] = c.lower;
            memory[i + 11] = end_word(h);
        }
    }
}
