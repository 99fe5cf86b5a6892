// States: where the first child of a form begins, states and outcomes written anew, and one token.
ghost use Rattle.std.specs.Prelude.{◌≡◌, ◌+◌, ◌<◌, ◌^◌};
ghost use Rattle.columns.specs.Intervals.{plus as plus_end, inner_ends};
ghost use Rattle.columns.specs.InternalHighest.{finite, highest, rise};
ghost use Rattle.readings.specs.Readings.{in_force};
ghost use Rattle.walk.specs.InternalWalk.{child_state, with_farthest, joined_outcome, ReadyToken, token_outcome};
ghost use Rattle.walk.specs.InternalWalk.{column_outcome};

use columns::{Interval, Outcome, Reading, State, Upper};
use intervals::{after_token, amount, fits};
use readings::in_force;
use table::{Kind, relations};

// The state in which the first child of a node is walked: an indent's in its inner set, an align's with the flag set.
#[tactic(auto, unfolding(crate::specs::InternalWalk::child_state))]
pub(crate) fn entered(reading: Reading, kind: Kind, r: u16, s: State) -> State
    requires { highest s.interval + rise (in_force reading s.flag r) < 2 ^ 32 }
    ensures { result ≡ child_state reading kind r s }
{
    let c = s.interval;
    match kind {
        Kind::Indent => {
            let q = in_force(reading, s.flag, r);
            let narrowed = inner(q, c);
            State {
                interval: narrowed,
                ..s
            }
        }
        Kind::Align => State { flag: true, ..s },
        _ => s,
    }
}

// The inner set on the way in.
fn inner(r: u16, c: Interval) -> Interval
    requires { highest c + rise r < 2 ^ 32 }
    ensures { result ≡ inner_ends r c }
{
    let l = c.lower;
    let h = c.upper;
    match r {
        relations::EQUAL => c,
        relations::GREATER => Interval {
            lower: raised(l, 1),
            upper: Upper::Endless,
        },
        relations::AT_LEAST => Interval {
            lower: l,
            upper: Upper::Endless,
        },
        relations::ANY => Interval {
            lower: 0,
            upper: Upper::Endless,
        },
        _ => {
            let d = amount(r);
            let lower = raised(l, d);
            let upper = plus(h, d);
            Interval { lower, upper }
        }
    }
}

// An upper end plus an amount; without end stays.
fn plus(h: Upper, d: u32) -> Upper
    requires { finite h + d < 2 ^ 32 }
    ensures { result ≡ plus_end h d }
{
    match h {
        Upper::Endless => h,
        Upper::At(x) => Upper::At(raised(x, d)),
    }
}

// A column raised by an amount.
fn raised(l: u32, d: u32) -> u32
    requires { l + d < 2 ^ 32 }
    ensures { result ≡ l + d }
{
    l + d
}

// The same state, its upper end written anew: so the compiler stores as one what a walk loads as one, and the load need not
// wait.
pub(crate) fn anew(s: State) -> State
    ensures { result ≡ s }
{
    let c = s.interval;
    let upper = c.upper;
    match upper {
        Upper::At(h) => State {
            place: s.place,
            farthest: s.farthest,
            interval: Interval {
                lower: c.lower,
                upper: Upper::At(h),
            },
            flag: s.flag,
        },
        Upper::Endless => State {
            place: s.place,
            farthest: s.farthest,
            interval: Interval {
                lower: c.lower,
                upper: Upper::Endless,
            },
            flag: s.flag,
        },
    }
}

// The same state, as if nothing was tried yet, written anew too.
pub(crate) fn untried(s: State) -> State
    ensures { result ≡ with_farthest s 0 }
{
    anew(State { farthest: 0, ..s })
}

// An outcome from a state in which nothing was tried, with what was tried before joined to what it tried. Its state is written
// anew: what comes back from a walk is then in registers.
pub(crate) fn joined(farthest: u32, x: Outcome) -> Outcome
    ensures { result ≡ joined_outcome farthest x }
{
    match x {
        Outcome::Failure(tried) => Outcome::Failure(farthest.max(tried)),
        Outcome::Success(u) => Outcome::Success(anew(State {
            farthest: farthest.max(u.farthest),
            ..u
        })),
    }
}

// One token, as a terminal in a mode.
pub(crate) fn token(tokens: &[u32], terminal: u16, mode: u16, s: State) -> Outcome
    requires { ReadyToken tokens.now }
    ensures { result ≡ token_outcome tokens.now mode terminal s }
{
    let farthest = s.farthest.max(s.place);
    let at = (s.place as usize) * 4;
    if tokens.len() <= at {
        return Outcome::Failure(farthest); // past the last token
    }
    if tokens[at] != terminal as u32 {
        return Outcome::Failure(farthest);
    }
    at_column(mode, s, farthest, tokens[at + 1])
}

// That terminal at a column, with the farthest place given.
fn at_column(mode: u16, s: State, farthest: u32, i: u32) -> Outcome
    requires { s.place + 1 < 2 ^ 32 }
    ensures { result ≡ column_outcome mode s farthest i }
{
    if fits(s.flag, mode, s.interval, i) {
        let new = after_token(s.flag, mode, s.interval, i);
        Outcome::Success(State {
            place: s.place + 1,
            farthest,
            interval: new,
            flag: false,
        })
    } else {
        Outcome::Failure(farthest)
    }
}
