// Fields by their offset: a one-byte tag, a two-byte length (high byte first), the value.
#![tactic(auto)]

ghost use Rattle.std.specs.Prelude.{◌≡◌, ◌+◌, ◌≤◌, ◌<◌, MatchOption, length, get_or, drop};
ghost use Rattle.file_fields.specs.Fields.{right_length};
ghost use Rattle.file_fields.specs.Offsets.{length_at, value_at, next_at, offset_of, right_at};

pub mod tags;

// Fields of one tag in a row: the offset of the first, and how many there are.
#[derive(Clone, Copy)]
pub struct Group {
    pub at: usize,
    pub count: usize,
}

// A field's tag, the length of its value, and the bytes behind the two, as many as there are.
#[derive(Clone, Copy)]
struct Head<'a> {
    tag: u8,
    length: usize,
    rest: &'a [u8],
}

// The head of the field at an offset, or none where fewer than three bytes are left.
fn head_at(file: &[u8], at: usize) -> Option<Head<'_>>
    ensures { MatchOption result (length file.now < at + 3)
        (λ h. (at + 3 ≤ length file.now) × (h.tag ≡ get_or file.now at 0) × (h.length ≡ length_at file.now at)
        × (h.rest.now ≡ drop (at + 3) file.now)) }
{
    match file.get(at..) {
        Some([tag, high, low, rest @ ..]) => Some(Head {
            tag: *tag,
            length: usize::from(u16::from_be_bytes([*high, *low])),
            rest,
        }),
        _ => None,
    }
}

// The value of the field at an offset, as a part of the file; what is cut short ends with the file.
#[tactic(auto, unfolding(crate::specs::Offsets::value_at))]
pub fn value_at(file: &[u8], at: usize) -> &[u8]
    ensures { result.now ≡ value_at file.now at }
{
    match head_at(file, at) {
        Some(head) => &head.rest[..head.length.min(head.rest.len())],
        None => &[],
    }
}

// The offset of the field behind the one at an offset, or the file's end.
#[tactic(auto, unfolding(crate::specs::Offsets::next_at))]
pub fn next_at(file: &[u8], at: usize) -> usize
    ensures { result ≡ next_at file.now at }
{
    match head_at(file, at) {
        Some(head) => at + 3 + head.length.min(head.rest.len()),
        None => file.len(),
    }
}

// Whether a whole field of a tag, its value of the tag's length, stands at an offset.
#[tactic(auto, unfolding(crate::specs::Offsets::right_at))]
pub fn right_at(file: &[u8], at: usize, tag: u8) -> bool
    ensures { result ≡ right_at file.now at tag }
{
    match head_at(file, at) {
        Some(head) => {
            head.length <= head.rest.len() && head.tag == tag && right_length(tag, head.length)
        }
        None => false,
    }
}

// The length that number 1 asks of a tag's value.
#[tactic(auto, unfolding(crate::specs::Fields::right_length))]
fn right_length(tag: u8, n: usize) -> bool
    ensures { result ≡ right_length tag n }
{
    match tag {
        tags::FORMAT => n == 1,
        tags::KEYWORD => true,
        tags::RULE => n >= 2,
        tags::NODE => n == 6,
        tags::START => n == 3,
        _ => false,
    }
}

// The offset of the field that is k fields behind the one at an offset.
#[tactic(auto, unfolding(crate::specs::Offsets::offset_of))]
pub fn offset_of(file: &[u8], first: usize, k: usize) -> usize
    ensures { result ≡ offset_of file.now first k }
{
    let mut at = first;
    for _ in 0..k {
        at = next_at(file, at);
    }
    at
}

// A field's value without its first bytes: a keyword skips none, a rule's name two.
pub fn spelling_at(file: &[u8], at: usize, skip: usize) -> &[u8]
    ensures { result.now ≡ drop skip (value_at file.now at) }
{
    value_at(file, at).get(skip..).unwrap_or(&[])
}

// The byte at an index of a value, and 0 past its end.
pub fn byte_in(value: &[u8], i: usize) -> u8
    ensures { result ≡ get_or value.now i 0 }
{
    value.get(i).copied().unwrap_or(0)
}
