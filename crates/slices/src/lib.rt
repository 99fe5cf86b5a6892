// What programs and the C interface ask of slices: the first bytes or tokens, bytes put into a lent slice, and whether
// words are still the marker that they were set to.
#![tactic(auto)]

ghost use Rattle.std.specs.Prelude.{◌≡◌, ◌*◌, length, take, drop};
ghost use Rattle.slices.specs.Copied.{copied, placed};
ghost use Rattle.slices.specs.Filled.{filled_by};

// The first n elements, or all where there are fewer.
pub fn front<T>(elements: &[T], n: usize) -> &[T]
    ensures { result.now ≡ take n elements.now }
{
    &elements[..n.min(elements.len())]
}

// The words of the first n tokens, four each, or all where there are fewer.
pub fn front_tokens(tokens: &[u32], n: usize) -> &[u32]
    ensures { result.now ≡ take (n * 4) tokens.now }
{
    front(tokens, n.saturating_mul(4))
}

// Copies bytes to a lent slice, and says how many there are. A slice that is too short for them is left as it is.
pub fn copy(bytes: &[u8], out: &mut [u8]) -> usize
    ensures value { result ≡ length bytes.now }
    ensures out_after { out.new ≡ copied bytes.now out.old }
{
    put(bytes, out, 0);
    bytes.len()
}

// Puts bytes into a lent slice from an index on. A slice that is too short for them is left as it is. A loop, since the
// library's copy has the archive for C ask for memmove.
pub fn put(bytes: &[u8], out: &mut [u8], at: usize)
    ensures { out.new ≡ placed at bytes.now out.old }
{
    if bytes.len() <= out.len() && at <= out.len() - bytes.len() {
        for i in 0..bytes.len() {
            out[at + i] = bytes[i];
        }
    }
}

// Whether every word from an index on is a value.
pub fn filled<T: PartialEq + Copy>(words: &[T], from: usize, value: T) -> bool
    ensures { result ≡ filled_by T.eq value (drop from words.now) }
{
    words.iter().skip(from).all(|word| *word == value)
}
