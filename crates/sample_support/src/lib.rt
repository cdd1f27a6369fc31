// What the programs that run cases share: they tell of bytes as text, and their arguments are decimal numbers. `arguments` has what they do with an argument,
// `lines` the parts of the line that they write of a case, and `buffers` their buffers.
//
// `shown` writes bytes as visible text, `digits` the values of the digits in front of a text, each into a
// lent buffer: as much is stored as there is room for, and the answer says how many bytes that is. `number_of` reads a number, cut at the most
// that is asked for. `front` cuts a number of bytes to those that there are. Each takes any bytes and any numbers.
#![tactic(auto)]

ghost use Rattle.std.specs.Prelude.{◌≡◌, [], ◌∷◌, ◌+◌, ◌-◌, ◌*◌, ◌<◌, min, length};
ghost use Rattle.base_readers.specs.Texts.{within};
ghost use Rattle.sample_support.specs.Samples.{number, hex_digit, plain, shown, digits, Front, Filled};

pub mod arguments;
pub mod buffers;
pub mod lines;

// How many of n bytes there are in front: n, or all where there are fewer.
pub fn front(s: &[u8], n: usize) -> usize
    ensures value { result ≡ min n (length s.now) }
    ensures front { Front result s.now }
{
    n.min(s.len())
}

// Whether a byte is from a to z.
fn is_within(b: u8, a: u8, z: u8) -> bool
    ensures { result ≡ within a z b }
{
    if b < a {
        return false;
    }
    b <= z
}

// Ten times a number and a digit's value, cut at the most. The value is how far the byte is past "0", and 0 for a byte before it.
fn with_digit(n: usize, b: u8, most: usize) -> usize
    ensures { result ≡ min (n * 10 + (b - 48)) most }
{
    let value = usize::from(b.saturating_sub(b'0'));
    n.saturating_mul(10).saturating_add(value).min(most)
}

// The number that decimal digits tell, cut at the most; a byte that is no digit counts by its distance from "0".
pub fn number_of(s: &[u8], most: usize) -> usize
    ensures { result ≡ min (number 0 s.now) most }
{
    let mut n: usize = 0;
    for b in s {
        n = with_digit(n, *b, most);
    }
    n
}

// Stores a byte where there is room.
fn put(b: u8, out: &mut [u8], at: usize) -> usize
    ensures { Filled out.old at (b ∷ []) out.new result }
{
    if at < out.len() {
        out[at] = b;
        return at + 1;
    }
    out.len()
}

// A lower-case hex digit.
fn hex_digit(n: u8) -> u8
    requires { n < 16 }
    ensures { result ≡ hex_digit n }
{
    if n < 10 {
        return b'0' + n;
    }
    b'a' + (n - 10)
}

// Whether a byte is shown as itself.
fn is_plain(b: u8) -> bool
    ensures { result ≡ plain b }
{
    if b == b'%' {
        return false;
    }
    is_within(b, 33, 126)
}

// A byte, or the percent sign and the two digits that stand for it.
fn put_shown(b: u8, out: &mut [u8], at: usize) -> usize
    ensures { Filled out.old at (shown (b ∷ [])) out.new result }
{
    if is_plain(b) {
        return put(b, out, at);
    }
    let n = put(b'%', out, at);
    let m = put(hex_digit(b / 16), out, n);
    put(hex_digit(b % 16), out, m)
}

// Shows bytes: one outside 33 to 126 and the percent sign as % and two hex digits in lower case, any other as itself.
pub fn shown(s: &[u8], out: &mut [u8]) -> usize
    ensures filled { Filled out.old 0 (shown s.now) out.new result }
    ensures front { Front result out.new }
{
    let mut n: usize = 0;
    for b in s {
        n = put_shown(*b, out, n);
    }
    n
}

// The values of the digits in front of a text.
pub fn digits(text: &[u8], out: &mut [u8]) -> usize
    ensures filled { Filled out.old 0 (digits text.now) out.new result }
    ensures front { Front result out.new }
{
    let mut n: usize = 0;
    for b in text {
        if !is_within(*b, b'0', b'9') {
            return n;
        }
        n = put(b.saturating_sub(b'0'), out, n);
    }
    n
}
