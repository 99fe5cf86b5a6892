// Number 14 of a capture (02, Note 2), and where its tokens begin and end.
#![tactic(auto)]

ghost use Rattle.std.specs.Prelude.{◌≡◌, get_or};
ghost use Rattle.capture_checks.specs.Fourteen.{token_offset, token_end, offsets_fall, fails14};

use columns::Capture;

// Number 14, for a file of so many rules and a report of so many bytes.
#[tactic(auto, unfolding(crate::specs::Fourteen::fails14))]
pub fn capture_wrong(rules: usize, bytes: usize, tokens: &[u32], capture: Capture) -> bool
    ensures { result ≡ fails14 rules bytes tokens.now capture }
{
    capture.rule as usize >= rules
        || capture.after as usize > tokens.len() / 4
        || capture.after < capture.first
        || offsets_fall(tokens, capture.first, capture.after)
        || capture.first < capture.after && token_end(tokens, capture.after - 1) > bytes
}

// Whether, among the tokens from one place to before another, one has a lower offset than the one before it.
#[tactic(auto, using(table::proofs::Every::every_more, table::proofs::Every::every_fails), unfolding(crate::specs::Fourteen::offsets_fall, table::specs::Every::every))]
fn offsets_fall(tokens: &[u32], first: u32, after: u32) -> bool
    ensures { result ≡ offsets_fall tokens.now first after }
{
    let pairs = after.saturating_sub(first).saturating_sub(1);
    for i in 0..pairs {
        if token_offset(tokens, first + i) > token_offset(tokens, first + i + 1) {
            return true;
        }
    }
    false
}

// A token's offset; 0 where there is no such token.
pub fn token_offset(tokens: &[u32], w: u32) -> u32
    ensures { result ≡ token_offset tokens.now w }
{
    word(tokens, w as usize * 4 + 2)
}

// The end of a token: its offset and its length, which together may pass a u32.
pub fn token_end(tokens: &[u32], w: u32) -> usize
    ensures { result ≡ token_end tokens.now w }
{
    let length = word(tokens, w as usize * 4 + 3);
    token_offset(tokens, w) as usize + length as usize
}

// The word at an index, and 0 past the end.
fn word(tokens: &[u32], i: usize) -> u32
    ensures { result ≡ get_or tokens.now i 0 }
{
    tokens.get(i).copied().unwrap_or(0)
}
