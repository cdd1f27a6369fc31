// Bytes of a class, and items: a byte of a class, a quoted pair or a fold.
//
// A reader is handed a slice and a place, any place, also past the end. It answers the place after the piece that starts there, and
// the place itself where there is none.
#![tactic(auto)]

ghost use Rattle.std.specs.Prelude.{◌≡◌, false, true, ◌&&◌, ◌+◌, drop, get_or};
ghost use Rattle.base_readers.specs.Readers.{run, many};
ghost use Rattle.lexis_rules.specs.Bytes.{in_class};
ghost use Rattle.lexis_rules.specs.Pieces.{escapes, pair, fold, item, bare_space};

use base_runs::ByteTest;
use lexis_rules::Class;

mod classes;
pub mod delimiters;

// Whether a byte is of a class.
pub fn in_class(c: Class, b: u8) -> bool
    ensures { result ≡ in_class c b }
{
    classes::in_class(c, b)
}

// Whether the byte `k` places behind `at` is in a class.
pub fn class_at(s: &[u8], at: usize, k: usize, c: Class) -> bool
    ensures { result ≡ in_class c (get_or (drop at s.now) k 0) }
{
    in_class(c, base_readers::byte(s, at, k))
}

// The bytes of a class.
#[derive(Drop)]
struct Of(Class);

impl ByteTest for Of {
    ghost passes = { λ t. in_class t.0 };

    fn passes(&self, b: u8) -> bool {
        in_class(self.0, b)
    }
}

// The end of the run of bytes of a class.
pub fn run_end(s: &[u8], at: usize, c: Class) -> usize
    ensures { result ≡ at + run (in_class c) (drop at s.now) }
{
    Of(c).run_end(s, at)
}

// A backslash stands in quoted strings and comments only.
fn escapes(c: Class) -> bool
    ensures { result ≡ escapes c }
{
    match c {
        Class::Quoted | Class::Comment => true,
        _ => false,
    }
}

// A backslash and the byte that it escapes, in a class that has them.
fn pair_at(s: &[u8], at: usize, c: Class) -> bool
    ensures { result ≡ (escapes c && pair (drop at s.now)) }
{
    if escapes(c) {
        if base_readers::is_at(s, at, 0, b'\\') {
            return class_at(s, at, 1, Class::Escaped);
        }
        return false;
    }
    false
}

// A CRLF and the space or tab that follows it.
fn fold_at(s: &[u8], at: usize) -> bool
    ensures { result ≡ fold (drop at s.now) }
{
    if base_readers::is_at(s, at, 0, b'\r') {
        if base_readers::is_at(s, at, 1, b'\n') {
            return class_at(s, at, 2, Class::Blank);
        }
        return false;
    }
    false
}

// How many bytes the item at a place has: one byte of a class, a backslash with its byte, or a fold; 0 where there is none.
pub fn item_at(s: &[u8], at: usize, c: Class) -> usize
    ensures { result ≡ item c (drop at s.now) }
{
    if class_at(s, at, 0, c) {
        return 1;
    }
    if pair_at(s, at, c) {
        return 2;
    }
    if fold_at(s, at) {
        return 3;
    }
    0
}

// The end of the items of a class, one after the other. A turn goes on by as many bytes as it found, one to three, so there is no range to go
// over.
pub fn items_end(s: &[u8], at: usize, c: Class) -> usize
    ensures { result ≡ at + many (item c) 0 (drop at s.now) }
{
    let mut i = at;
    loop {
        let n = item_at(s, i, c);
        if n == 0 {
            return i;
        }
        i += n;
    }
}

// The end of space without comments.
pub fn bare_space_end(s: &[u8], at: usize) -> usize
    ensures { result ≡ at + bare_space (drop at s.now) }
{
    items_end(s, at, Class::Blank)
}
