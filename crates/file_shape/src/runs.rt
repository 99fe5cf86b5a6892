// The shape of a file: its fields in order, by count and offset (number 1).
ghost use Rattle.std.specs.Prelude.{◌≡◌};
ghost use Rattle.file_shape.specs.InternalShape.{LongestRun, framed_by, Shaped};

use crate::{FIRST_KEYWORD, Group, Shape};
use file_fields::{byte_in, next_at, right_at, tags};

// How many fields of one tag stand in a row, and where they end.
#[derive(Clone, Copy)]
struct Run {
    count: usize,
    end: usize,
}

// The most bytes of a file, and the most keywords.
const BYTES: usize = 65535;

const KEYWORDS: usize = 253;

// The longest run of right fields of a tag from an offset on.
fn run_of(file: &[u8], at: usize, tag: u8) -> Run
    ensures { LongestRun file.now at tag result }
{
    let mut end = at;
    let mut count = 0;
    while right_at(file, end, tag) {
        end = next_at(file, end);
        count += 1;
    }
    Run { count, end }
}

// Number 1: tag 1, then runs of tags 2, 3 and 4, then tag 5, which ends the file.
#[tactic(auto, using(crate::proofs::ShapeLaws::unframed, crate::proofs::ShapeLaws::many_keywords, crate::proofs::ShapeLaws::framed_parts))]
pub(crate) fn shape_of(file: &[u8]) -> Option<Shape>
    ensures { Shaped file.now result }
{
    let keywords = run_of(file, FIRST_KEYWORD, tags::KEYWORD);
    let rules = run_of(file, keywords.end, tags::RULE);
    let nodes = run_of(file, rules.end, tags::NODE);
    if !framed(file, nodes.end) || keywords.count > KEYWORDS {
        return None;
    }
    Some(Shape {
        keywords: keywords.count,
        rules: Group {
            at: keywords.end,
            count: rules.count,
        },
        nodes: Group {
            at: rules.end,
            count: nodes.count,
        },
        start: nodes.end,
    })
}

// Whether the file is not over length, begins with tag 1 and its byte, and ends with tag 5 at an offset.
#[tactic(auto, unfolding(crate::specs::InternalShape::framed_by))]
fn framed(file: &[u8], start: usize) -> bool
    ensures { result ≡ framed_by file.now start }
{
    file.len() <= BYTES
        && right_at(file, 0, tags::FORMAT)
        && byte_in(file, 3) == 1
        && right_at(file, start, tags::START)
        && next_at(file, start) == file.len()
}
