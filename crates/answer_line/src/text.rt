// Bytes of a line, put one behind the other into a lent slice. Not by `write!`, since std doesn't promise which bytes that
// leaves in a slice.
ghost use Rattle.std.specs.Prelude.{[], ◌∷◌, ◌++◌, ◌+◌, ◌≤◌, ◌<◌, length};
ghost use Rattle.answer_line.specs.AnswerLine.{decimal, decimal_to};
ghost use Rattle.answer_line.specs.InternalPut.{Puts};

// Puts a byte at a place, and says where the next one goes.
pub(crate) fn put(out: &mut [u8], at: usize, byte: u8) -> usize
    requires { «at» < length out.old }
    ensures { Puts out.old «at» (byte ∷ []) result out.new }
{
    out[at] = byte;
    at + 1
}

// Puts a word.
pub(crate) fn put_word(out: &mut [u8], at: usize, word: &[u8]) -> usize
    requires { «at» + length word.now ≤ length out.old }
    ensures { Puts out.old «at» word.now result out.new }
{
    let next = at + word.len();
    out[at..next].copy_from_slice(word);
    next
}

// Puts a number in decimal digits, at most so many. Not by the kit's `itoa`: nothing but std is to be trusted here.
pub(crate) fn put_decimal(out: &mut [u8], at: usize, most: usize, n: u32) -> usize
    requires { «at» + «most» ≤ length out.old }
    ensures puts { Puts out.old «at» (decimal_to «most» n) result out.new }
    ensures upper_bound { result ≤ «at» + «most» }
{
    if most == 0 {
        return at;
    }
    if n < 10 {
        return put(out, at, 48 + n as u8);
    }
    let next = put_decimal(out, at, most - 1, n / 10);
    put(out, next, 48 + (n % 10) as u8)
}

// Puts a word and a number behind it.
pub(crate) fn put_number(out: &mut [u8], at: usize, word: &[u8], n: u32) -> usize
    requires { «at» + length word.now + 10 ≤ length out.old }
    ensures puts { Puts out.old «at» (word.now ++ decimal n) result out.new }
    ensures upper_bound { result ≤ «at» + length word.now + 10 }
{
    let next = put_word(out, at, word);
    put_decimal(out, next, 10, n)
}
