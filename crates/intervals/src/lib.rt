// Column intervals: whether a token fits one, and what is left of one after a token or an indent.
#![tactic(auto)]

ghost use Rattle.std.specs.Prelude.{◌≡◌, ◌<◌};
ghost use Rattle.columns.specs.Relations.{any, amount as amount_of};
ghost use Rattle.columns.specs.Intervals.{lower_end, meet_ends, less as less_end, inner_ends, outer_ends, lies as lies_in};
ghost use Rattle.columns.specs.Intervals.{fits as fits_in, after_token};

use columns::{Interval, Upper};
use table::relations;

// Whether a token at column i fits: in the interval with the flag set, else in the mode's inner set.
pub fn fits(flag: bool, mode: u16, c: Interval, i: u32) -> bool
    ensures { result ≡ fits_in flag mode c i }
{
    let r = if flag { relations::EQUAL } else { mode };
    // A number, as C and node words give it: an enum of 35 relations, of which four have names, is no plainer.
    match r {
        relations::EQUAL => lies(c, i),
        relations::GREATER => c.lower < i,
        relations::AT_LEAST => c.lower <= i,
        relations::ANY => true,
        _ => lies_in_step(r, c, i),
    }
}

// Whether a column lies in the inner set of a step: exactly where the column less the amount lies in the interval.
fn lies_in_step(r: u16, c: Interval, i: u32) -> bool
    requires { any < r }
    ensures { result ≡ lies_in i (inner_ends r c) }
{
    let d = amount(r);
    d <= i && lies(c, i - d)
}

// The amount of a step: its number less 3; 0 for the relations that have a name.
pub fn amount(r: u16) -> u32
    ensures { result ≡ amount_of r }
{
    r.saturating_sub(relations::ANY) as u32
}

// Whether a column lies between the ends.
fn lies(c: Interval, i: u32) -> bool
    ensures { result ≡ lies_in i c }
{
    match c.upper {
        Upper::Endless => c.lower <= i,
        Upper::At(x) => c.lower <= i && i <= x,
    }
}

// The interval after a token at column i: i to i with the flag set, else met with the mode's outer set of i to i.
pub fn after_token(flag: bool, mode: u16, c: Interval, i: u32) -> Interval
    ensures { result ≡ after_token flag mode c i }
{
    let one = Interval {
        lower: i,
        upper: Upper::At(i),
    };
    if flag { one } else { leave(mode, c, one) }
}

// What is left of an interval after an indent: it is met with the outer set of the inner one.
pub fn leave(r: u16, old: Interval, new: Interval) -> Interval
    ensures { result ≡ meet_ends old (outer_ends r new) }
{
    meet(old, outer(r, new))
}

// The outer set on the way out.
fn outer(r: u16, c: Interval) -> Interval
    ensures { result ≡ outer_ends r c }
{
    // A number, as in fits.
    match r {
        relations::EQUAL => c,
        relations::GREATER => Interval {
            lower: 0,
            upper: less(c.upper, 1),
        },
        relations::AT_LEAST => Interval {
            lower: 0,
            upper: c.upper,
        },
        relations::ANY => Interval {
            lower: 0,
            upper: Upper::Endless,
        },
        _ => {
            let d = amount(r);
            Interval {
                lower: c.lower.saturating_sub(d),
                upper: less(c.upper, d),
            }
        }
    }
}

// An upper end less an amount, which stops at 0; without end stays.
fn less(h: Upper, d: u32) -> Upper
    ensures { result ≡ less_end h d }
{
    match h {
        Upper::Endless => Upper::Endless,
        Upper::At(x) => Upper::At(x.saturating_sub(d)),
    }
}

// What lies in both of two intervals.
fn meet(a: Interval, b: Interval) -> Interval
    ensures { result ≡ meet_ends a b }
{
    Interval {
        lower: a.lower.max(b.lower),
        upper: lower_end(a.upper, b.upper),
    }
}

// The lower of two upper ends.
fn lower_end(a: Upper, b: Upper) -> Upper
    ensures { result ≡ lower_end a b }
{
    match (a, b) {
        (Upper::Endless, _) => b,
        (_, Upper::Endless) => a,
        (Upper::At(x), Upper::At(y)) => Upper::At(x.min(y)),
    }
}
