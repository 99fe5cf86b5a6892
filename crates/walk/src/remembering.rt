// What a walk remembers in a lent slice, and uses again: around a nested call, the outcome of its node.
ghost use Rattle.std.specs.Prelude.{◌≡◌, true};
ghost use Rattle.walk.specs.InternalRemembering.{Usable, Recalls, Stored};

use capture_list::quiet;
use columns::{Outcome, State};
use memory::{keep, look};
use table::Kind;

// Whether it pays to remember the outcomes of a node of a kind, and there is a slot: sequences and choices try two parts and
// repeats many, rules and positions lead to such. It changes the time alone, so it promises nothing.
pub(crate) fn pays(memory: &[u32], kind: Kind) -> bool {
    memory.len() >= memory::SLOT
        && matches!(
            kind,
            Kind::Rule | Kind::Sequence | Kind::Choice | Kind::Repeat | Kind::Position
        )
}

// The remembered outcome of what is walked first in a node of a kind, from a state, with so many captures so far: a success
// only where nothing is listed.
pub(crate) fn recall(
    memory: &[u32],
    kind: Kind,
    node: u16,
    mode: u16,
    s: State,
    count: usize,
) -> Option<Outcome>
    ensures { Recalls memory.now kind node mode s count result }
{
    let x = look(memory, node, mode, s)?;
    if serves(kind, count, x) {
        Some(x)
    } else {
        None
    }
}

// Remembers an outcome of what is walked first in a node of a kind, from a state, with so many captures so far: a success only
// where nothing is listed, as it cannot be used elsewhere and would take the slot of an outcome that can.
pub(crate) fn remember(
    memory: &mut [u32],
    kind: Kind,
    node: u16,
    mode: u16,
    s: State,
    count: usize,
    x: Outcome,
)
    ensures { Stored memory.old node mode s x memory.new }
{
    if serves(kind, count, x) {
        keep(memory, node, mode, s, x);
    }
}

// Whether an outcome can be used again where it was found, with so many captures so far.
fn serves(kind: Kind, count: usize, x: Outcome) -> bool
    ensures { result ≡ true → Usable kind count x }
{
    match x {
        Outcome::Failure(_) => true,
        Outcome::Success(_) => quiet(kind as u16, count),
    }
}
