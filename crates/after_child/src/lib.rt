// The state after an indent and after an align, from the one before it and the one that its child ended in; and the one behind
// a child that failed.
#![tactic(auto)]

ghost use Rattle.std.specs.Prelude.{◌≡◌};
ghost use Rattle.after_child.specs.AfterChild.{left_state, aligned_state, failed_state};

use columns::{Reading, State};
use intervals::leave;
use readings::handed_on;

// After an indent: the old interval met with the outer set of the child's, the rest as the child left it.
pub fn left(r: u16, s: State, u: State) -> State
    ensures { result ≡ left_state r s u }
{
    let out = leave(r, s.interval, u.interval);
    State {
        place: u.place,
        farthest: u.farthest,
        interval: out,
        flag: u.flag,
    }
}

// After an align: with the flag that the reading hands on.
pub fn aligned(reading: Reading, s: State, u: State) -> State
    ensures { result ≡ aligned_state reading s u }
{
    let d = u.interval;
    State {
        place: u.place,
        farthest: u.farthest,
        interval: d,
        flag: handed_on(reading, s.flag, u.flag),
    }
}

// After a child that failed, where the form goes on: the old place, interval and flag, and how far the child looked.
pub fn failed(s: State, farthest: u32) -> State
    ensures { result ≡ failed_state s farthest }
{
    let c = s.interval;
    State {
        place: s.place,
        farthest,
        interval: c,
        flag: s.flag,
    }
}
