// Domains, and the bytes and dots of a local part.
ghost use Rattle.std.specs.Prelude.{◌≡◌, true, ◌&&◌, ◌||◌, ◌+◌, ◌<◌, eqb, drop};
ghost use Rattle.base_readers.specs.Readers.{run};
ghost use Rattle.result_rules.specs.Results.{alphanumeric, in_local_part, single_dots, domain};
ghost use Rattle.result_values.specs.Domains.{local_word, goes_on, closed_at};

use base_runs::ByteTest;
use lexis_rules::Class;

// The bytes of local parts: a binary digit for each, the lowest first, 64 bytes to a word.
fn local_word(b: u8) -> u64
    ensures { result ≡ local_word b }
{
    if b < 64 {
        return 0xa3ffecfa00000000;
    }
    if b < 128 {
        return 0x7fffffffc7fffffe;
    }
    0
}

// Whether a byte may stand in a local part.
pub fn in_local_part(b: u8) -> bool
    ensures { result ≡ in_local_part b }
{
    (local_word(b) >> (b % 64)) % 2 == 1
}

// The bytes of a local part.
#[derive(Drop)]
struct LocalByte;

impl ByteTest for LocalByte {
    ghost passes = { λ t. in_local_part };

    fn passes(&self, b: u8) -> bool {
        in_local_part(b)
    }
}

// The end of the run of bytes of a local part.
pub fn local_end(s: &[u8], at: usize) -> usize
    ensures { result ≡ at + run in_local_part (drop at s.now) }
{
    LocalByte.run_end(s, at)
}

// Whether a byte is a dot that follows a dot, or the front.
fn is_doubled(dot: bool, b: u8) -> bool
    ensures { result ≡ (dot && eqb b 46) }
{
    dot && b == b'.'
}

// Whether a text isn't empty and has no leading, trailing or doubled dot.
pub fn has_single_dots(l: &[u8]) -> bool
    ensures { result ≡ single_dots true l.now }
{
    let mut dot = true;
    for &b in l {
        if is_doubled(dot, b) {
            return false;
        }
        dot = b == b'.';
    }
    !dot
}

// Whether a byte is a letter or digit.
fn is_alphanumeric(x: u8) -> bool
    ensures { result ≡ alphanumeric x }
{
    if x == b'-' {
        return false;
    }
    lexis_classes::in_class(Class::Keyword, x)
}

// Whether a byte may follow another one in labels parted by dots.
fn goes_on(before: u8, b: u8) -> bool
    ensures { result ≡ goes_on before b }
{
    if is_alphanumeric(b) {
        return true;
    }
    if b == b'.' {
        return is_alphanumeric(before);
    }
    if b == b'-' {
        return before != b'.';
    }
    false
}

// Whether a dot was seen before, or is seen at this byte.
fn is_parted(seen: bool, b: u8) -> bool
    ensures { result ≡ (seen || eqb b 46) }
{
    seen || b == b'.'
}

// Where a domain that started at a place ends: at e, if its labels are two or more and the last byte may end one; else there is none.
fn closed_at(parted: bool, last: u8, at: usize, e: usize) -> usize
    ensures { result ≡ closed_at parted last at e }
{
    if parted && is_alphanumeric(last) {
        return e;
    }
    at
}

// The end of a domain. Each byte is looked at once: the labels go on as long as it may follow the one before it. A byte of a domain that may
// not do so has one before it that ends no label.
pub fn domain_end(s: &[u8], at: usize) -> usize
    ensures { result ≡ at + domain (drop at s.now) }
{
    let mut last = b'.';
    let mut parted = false;
    for i in at..s.len() {
        let b = s[i];
        if !goes_on(last, b) {
            return closed_at(parted, last, at, i);
        }
        parted = is_parted(parted, b);
        last = b;
    }
    closed_at(parted, last, at, s.len())
}
