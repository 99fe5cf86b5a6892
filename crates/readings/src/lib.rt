// The reading of a run (02, Note 5), and what it decides: the relation that an indent is walked by, and the flag that an
// align hands on. The C interface has it as a flag, set for 2014.
#![tactic(auto)]

ghost use Rattle.std.specs.Prelude.{◌≡◌};
ghost use Rattle.clauses.specs.Clauses.{handed_on};
ghost use Rattle.readings.specs.Readings.{reading_of, in_force};

use columns::Reading;
use table::relations;

// The reading that a flag names.
pub fn reading(by_2014: bool) -> Reading
    ensures { result ≡ reading_of by_2014 }
{
    if by_2014 {
        Reading::By2014
    } else {
        Reading::By2017
    }
}

// The relation that an indent is walked by, under the flag before it: its own where it counts, else equal.
pub fn in_force(reading: Reading, flag: bool, r: u16) -> u16
    ensures { result ≡ in_force reading flag r }
{
    match reading {
        Reading::By2014 => if flag { relations::EQUAL } else { r },
        Reading::By2017 => r,
    }
}

// The flag that an align hands on, from the one before it and the one that its child left.
pub fn handed_on(reading: Reading, before: bool, after: bool) -> bool
    ensures { result ≡ handed_on reading before after }
{
    match reading {
        Reading::By2014 => after,
        Reading::By2017 => before && after,
    }
}
