// Ford's rules for one form: its facts, and whether it is well formed, from what is known of its children.
#![tactic(auto)]

ghost use Rattle.std.specs.Prelude.{◌≡◌, [], ◌∷◌, ℕ};
ghost use Rattle.table.specs.Form.{decode, sequence as sequence-form, choice as choice-form};
ghost use Rattle.form_facts.specs.Rules.{Fact, gives, passes};
ghost use Rattle.form_facts.specs.OneForm.{two, fact_of};

use table::Kind;

// What an expression may do: succeed reading nothing, succeed reading something, fail.
#[derive(Clone, Copy, Debug, PartialEq, Eq, Default)]
pub struct Facts {
    pub nothing: bool,
    pub something: bool,
    pub fails: bool,
}

// A form's facts from those of its children.
#[tactic(auto, unfolding(crate::specs::Rules::gives))]
pub fn facts_by_form(kind: u16, a: Facts, b: Facts) -> Facts
    ensures { (x : Fact)
        → fact_of result x ≡ gives (0 ∷ []) (λ (y : Fact). two (fact_of a y) (fact_of b y)) (decode kind 0 1 0) x }
{
    match Kind::try_from(kind) {
        Ok(Kind::Empty) => Facts {
            nothing: true,
            something: false,
            fails: false,
        },
        Ok(Kind::Terminal) => Facts {
            nothing: false,
            something: true,
            fails: true,
        },
        Ok(Kind::Rule | Kind::Indent | Kind::Position | Kind::Align) => a,
        Ok(Kind::Sequence) => sequence(a, b),
        Ok(Kind::Choice) => choice(a, b),
        Ok(Kind::Not) => Facts {
            nothing: a.fails,
            something: false,
            fails: a.nothing || a.something,
        },
        Ok(Kind::Repeat) => Facts {
            nothing: a.fails,
            something: a.something,
            fails: false,
        },
        Err(_) => Facts::default(),
    }
}

// Whether a form is well formed: from whether a is, whether it may succeed reading nothing, and whether b is.
#[tactic(auto, unfolding(crate::specs::Rules::passes))]
pub fn well_by_form(kind: u16, a: bool, nothing: bool, b: bool) -> bool
    ensures { result ≡ passes (0 ∷ []) (λ (n : ℕ). nothing) (two a b) (decode kind 0 1 0) }
{
    match Kind::try_from(kind) {
        Ok(Kind::Empty | Kind::Terminal) => true,
        Ok(Kind::Rule | Kind::Not | Kind::Indent | Kind::Position | Kind::Align) => a,
        Ok(Kind::Sequence) => a && (!nothing || b),
        Ok(Kind::Choice) => a && b,
        Ok(Kind::Repeat) => a && !nothing,
        Err(_) => false,
    }
}

// The facts of a sequence.
#[tactic(auto, unfolding(crate::specs::Rules::gives))]
fn sequence(a: Facts, b: Facts) -> Facts
    ensures { (x : Fact)
        → fact_of result x ≡ gives (0 ∷ []) (λ (y : Fact). two (fact_of a y) (fact_of b y)) (sequence-form 0 1) x }
{
    let first = a.nothing || a.something;
    let second = b.nothing || b.something;
    Facts {
        nothing: a.nothing && b.nothing,
        something: a.something && second || first && b.something,
        fails: a.fails || first && b.fails,
    }
}

// The facts of an ordered choice.
#[tactic(auto, unfolding(crate::specs::Rules::gives))]
fn choice(a: Facts, b: Facts) -> Facts
    ensures { (x : Fact)
        → fact_of result x ≡ gives (0 ∷ []) (λ (y : Fact). two (fact_of a y) (fact_of b y)) (choice-form 0 1) x }
{
    Facts {
        nothing: a.nothing || a.fails && b.nothing,
        something: a.something || a.fails && b.something,
        fails: a.fails && b.fails,
    }
}
