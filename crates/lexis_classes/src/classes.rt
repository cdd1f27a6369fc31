// The classes of bytes: `in_class` answers whether a byte is of one.
ghost use Rattle.std.specs.Prelude.{◌≡◌};
ghost use Rattle.lexis_rules.specs.Bytes.{in_class};
ghost use Rattle.lexis_classes.specs.Internal.{rows_of, word_of};

use lexis_rules::Class;

// A class: a binary digit for each byte, the lowest first, 64 bytes to a word.
#[derive(Drop)]
struct Rows(u64, u64, u64, u64);

fn rows_of(c: Class) -> Rows
    ensures { result ≡ rows_of c }
{
    match c {
        Class::Blank => Rows(0x100000200, 0x0, 0x0, 0x0),
        Class::Opening => Rows(0x10100002200, 0x0, 0x0, 0x0),
        Class::Zero => Rows(0x1000000000000, 0x0, 0x0, 0x0),
        Class::Digit => Rows(0x3ff000000000000, 0x0, 0x0, 0x0),
        Class::Keyword => Rows(0x3ff200000000000, 0x7fffffe07fffffe, 0x0, 0x0),
        Class::Token => Rows(0x3ff6cfa00000000, 0x7fffffffc7fffffe, 0x0, 0x0),
        Class::Quoted => Rows(
            0xfffffffb00000200,
            0x7fffffffefffffff,
            0xffffffffffffffff,
            0xffffffffffffffff,
        ),
        Class::Comment => Rows(
            0xfffffcff00000200,
            0x7fffffffefffffff,
            0xffffffffffffffff,
            0xffffffffffffffff,
        ),
        Class::Escaped => Rows(0xffffffff00000200, 0x7fffffffffffffff, 0x0, 0x0),
        Class::Name => Rows(0xfbfffffe00000000, 0x7fffffffffffffff, 0x0, 0x0),
        Class::Visible => Rows(0xfffffffe00000000, 0x7fffffffffffffff, 0x0, 0x0),
        Class::Delimiter => Rows(0x800010100002200, 0x0, 0x0, 0x0),
        Class::Tag => Rows(
            0xf7ffffff00000200,
            0x7fffffffffffffff,
            0xffffffffffffffff,
            0xffffffffffffffff,
        ),
    }
}

// The word that has the byte.
fn word(r: Rows, b: u8) -> u64
    ensures { result ≡ word_of r b }
{
    if b < 64 {
        return r.0;
    }
    if b < 128 {
        return r.1;
    }
    if b < 192 {
        return r.2;
    }
    r.3
}

// Whether a byte is of a class.
pub fn in_class(c: Class, b: u8) -> bool
    ensures { result ≡ in_class c b }
{
    (word(rows_of(c), b) >> (b % 64)) % 2 == 1
}
