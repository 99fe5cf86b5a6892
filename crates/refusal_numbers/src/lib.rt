// What a refusal is told as, whatever type a call refuses with: a number, and for 7 the node. The line, the C interface and
// the programs tell an answer by it, so that each number of a byte has its words there.
#![tactic(auto)]

ghost use Rattle.std.specs.Prelude.{◌≡◌};
ghost use Rattle.refusal_numbers.specs.declared.Told.{Told};
ghost use Rattle.refusal_numbers.specs.Numbers.{told_of};

use table::Refusal;

// The number of the check that fails, or 7 with the node.
#[derive(Clone, Copy, Debug, PartialEq, Eq)]
pub enum Told {
    Number(u8),
    IllFormed(u16),
}

// A type that a call refuses with.
pub trait Refuses: Copy {
    // What a refusal is told as.
    ghost told: { Self → Told };

    fn told(self) -> Told
        ensures { result ≡ told self };
}

impl Refuses for Told {
    ghost told = { λ told. told };

    fn told(self) -> Told {
        self
    }
}

impl Refuses for Refusal {
    ghost told = { told_of };

    fn told(self) -> Told {
        match self {
            Refusal::IllFormed(node) => Told::IllFormed(node),
            refusal => Told::Number(refusal.number()),
        }
    }
}
