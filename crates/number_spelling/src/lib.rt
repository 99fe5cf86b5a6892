// Spellings of numbers, and the terminal of a spelling: a keyword's, or one that no keyword has.
#![tactic(auto)]

ghost use Rattle.std.specs.Prelude.{◌≡◌, cond, ◌+◌};
ghost use Rattle.number_spelling.specs.Number.{is_digit, is_number, unsigned, digit_first, after_digits, fraction};

use byte_class::{Class, class_of};
use table::terminals;

// The terminal of a spelling that no keyword has.
pub fn no_keyword(s: &[u8]) -> u32
    ensures { result ≡ cond (is_number s.now) 0 1 }
{
    if number(s) {
        terminals::NUMBER
    } else {
        terminals::WORD
    }
}

// The terminal of keyword k.
pub fn keyword_terminal(k: u8) -> u32
    ensures { result ≡ 3 + k }
{
    terminals::FIRST_KEYWORD + u32::from(k)
}

// An optional minus, digits, optionally a point and digits.
#[tactic(auto, unfolding(crate::specs::Number::is_number))]
fn number(s: &[u8]) -> bool
    ensures { result ≡ is_number s.now }
{
    let whole = unsigned(s);
    digit_first(whole) && fraction(after_digits(whole))
}

// Nothing, or a point and digits.
#[tactic(auto, unfolding(crate::specs::Number::fraction, crate::specs::Number::is_empty))]
fn fraction(s: &[u8]) -> bool
    ensures { result ≡ fraction s.now }
{
    match s {
        [] => true,
        [point, digits @ ..] => *point == b'.'
            && digit_first(digits)
            && after_digits(digits).is_empty(),
    }
}

// What stands behind an optional minus.
#[tactic(auto, unfolding(crate::specs::Number::unsigned))]
fn unsigned(s: &[u8]) -> &[u8]
    ensures { result.now ≡ unsigned s.now }
{
    match s {
        [b'-', rest @ ..] => rest,
        _ => s,
    }
}

// Whether a digit is in front.
#[tactic(auto, unfolding(crate::specs::Number::digit_first))]
fn digit_first(s: &[u8]) -> bool
    ensures { result ≡ digit_first s.now }
{
    s.first().is_some_and(|b| is_digit(*b))
}

// What is left behind the digits at the front.
#[tactic(auto, unfolding(crate::specs::Number::after_digits))]
fn after_digits(s: &[u8]) -> &[u8]
    ensures { result.now ≡ after_digits s.now }
{
    let mut rest = s;
    while let [b, behind @ ..] = rest {
        if !is_digit(*b) {
            return rest;
        }
        rest = behind;
    }
    rest
}

#[tactic(auto, unfolding(crate::specs::Number::is_digit))]
fn is_digit(b: u8) -> bool
    ensures { result ≡ is_digit b }
{
    class_of(b) == Class::Digit
}
