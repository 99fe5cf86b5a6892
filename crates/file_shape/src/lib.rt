// The shape of a grammar file: its fields by count and offset, and the first of numbers 1 to 5 that fails.
#![tactic(auto)]

mod runs;

ghost use Rattle.std.specs.Prelude.{◌≡◌};
ghost use Rattle.file_shape.specs.Contents.{fields_of, fails2};
ghost use Rattle.file_shape.specs.Shape.{Parts, Inspects};

pub use file_fields::Group;
use file_fields::{byte_in, value_at};
use file_tables::{check_tables, first_number};
use runs::shape_of;
use spellings::{right_spellings, singles_alone};
use table::Refusal;

// The fields of a file; the keywords stand behind tag 1's four bytes.
#[derive(Clone, Copy)]
pub struct Shape {
    pub keywords: usize,
    pub rules: Group,
    pub nodes: Group,
    pub start: usize,
}

// What a file holds: the counts of nodes, rules and keywords, and the start.
#[derive(Clone, Copy, Debug, PartialEq, Eq)]
pub struct Contents {
    pub nodes: usize,
    pub rules: usize,
    pub keywords: usize,
    pub start: u16,
    pub mode: u16,
}

// The offset of the first keyword, where there is one: behind tag 1's four bytes.
pub const FIRST_KEYWORD: usize = 4;

// The shape of a file that passes numbers 1 to 5, or the first that fails.
#[tactic(auto, using(crate::proofs::PartLaws::by_names), unfolding(crate::specs::Contents::file_answer))]
pub fn inspect(file: &[u8]) -> Result<Shape, Refusal>
    ensures { Inspects file.now result }
{
    let Some(shape) = shape_of(file) else {
        return Err(Refusal::Fields);
    };
    if names_wrong(file, shape) {
        return Err(Refusal::Spelling);
    }
    check_tables(file, shape.nodes, shape.rules)?;
    let value = value_at(file, shape.start);
    if usize::from(first_number(value)) >= shape.nodes.count
        || u16::from(byte_in(value, 2)) >= table::RELATIONS
    {
        return Err(Refusal::Rule);
    }
    Ok(shape)
}

// Number 2: a keyword or a rule name breaks its rules.
fn names_wrong(file: &[u8], s: Shape) -> bool
    requires { Parts file.now s }
    ensures { result ≡ fails2 (fields_of file.now) }
{
    let keywords = Group {
        at: FIRST_KEYWORD,
        count: s.keywords,
    };
    !(right_spellings(file, keywords, 0)
        && singles_alone(file, keywords)
        && right_spellings(file, s.rules, 2))
}
