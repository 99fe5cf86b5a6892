// The class of a byte: the one match that decides break, tab, blank, single, digit, run byte, continuation byte or refusal.
#![tactic(auto)]

ghost use Rattle.std.specs.Prelude.{◌≡◌};
ghost use Rattle.byte_class.specs.Bytes.{is_continuation, class_of};

#[derive(Clone, Copy, Debug, PartialEq, Eq)]
pub enum Class {
    Break,
    Tab,
    Blank,
    Single,
    Digit,
    Run,
    Continuation,
    Refused,
}

#[tactic(auto, unfolding(crate::specs::Bytes::is_single, crate::specs::Bytes::is_continuation, crate::specs::Bytes::class_of))]
pub fn class_of(b: u8) -> Class
    ensures { result ≡ class_of b }
{
    match b {
        b'\n' => Class::Break,
        b'\t' => Class::Tab,
        13 | 32 => Class::Blank,
        0..=31 | 127 => Class::Refused,
        b':' | b',' | b'(' | b')' | b'[' | b']' | b'=' | b';' | b'%' => Class::Single,
        b'0'..=b'9' => Class::Digit,
        128..=191 => Class::Continuation,
        _ => Class::Run,
    }
}

// Whether a byte has the class of continuation bytes, by comparing alone: for a loop that knows that it is in a run.
#[tactic(auto, unfolding(crate::specs::Bytes::is_continuation))]
pub fn is_continuation(b: u8) -> bool
    ensures { result ≡ is_continuation b }
{
    (128..=191).contains(&b)
}
