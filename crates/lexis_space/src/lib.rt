// The space of a field body, with folds and comments.
//
// A reader is handed a slice and a place, any place, also past the end. It answers the place after the piece that starts there, and
// the place itself where there is none. Nothing is refused here: what it means that a piece is missing is the caller's to say.
#![tactic(auto)]

ghost use Rattle.std.specs.Prelude.{◌≡◌, ◌+◌, drop, get_or};
ghost use Rattle.base_readers.specs.Readers.{run};
ghost use Rattle.lexis_rules.specs.declared.Class.TheVariants as class;
ghost use Rattle.lexis_rules.specs.Bytes.{in_class};
ghost use Rattle.lexis_rules.specs.Pieces.{space};

use base_runs::ByteTest;
use lexis_rules::Class;

// Spaces and tabs.
#[derive(Drop)]
struct Blank;

impl ByteTest for Blank {
    ghost passes = { λ t. in_class class.Blank };

    fn passes(&self, b: u8) -> bool {
        (b == b' ') | (b == b'\t')
    }
}

// The end of a space that starts with a byte with which one can start: each turn passes a run of spaces and tabs, and then a comment or
// a fold, as far as these reach, so there is no range to go over.
fn space_from(s: &[u8], at: usize) -> usize
    ensures { result ≡ at + space (drop at s.now) }
{
    let mut i = at;
    loop {
        let e = Blank.run_end(s, i);
        if base_readers::is_at(s, e, 0, b'(') {
            let f = lexis_comments::comment_end(s, e);
            if f == e {
                return e;
            }
            i = f;
        } else {
            let n = lexis_classes::item_at(s, e, Class::Blank);
            if n == 0 {
                return e;
            }
            i = e + n;
        }
    }
}

// Whether a space can start with the byte at a place.
fn opens_at(s: &[u8], at: usize) -> bool
    ensures { result ≡ in_class Class.Opening (get_or (drop at s.now) 0 0) }
{
    lexis_classes::class_at(s, at, 0, Class::Opening)
}

// The end of space, where there often is some.
pub fn wide_space_end(s: &[u8], at: usize) -> usize
    ensures { result ≡ at + space (drop at s.now) }
{
    if opens_at(s, at) {
        return space_from(s, at);
    }
    at
}

// The end of space. Most often there is none: the first byte tells. This test is small enough to be compiled into each caller.
pub fn space_end(s: &[u8], at: usize) -> usize
    ensures { result ≡ at + space (drop at s.now) }
{
    if opens_at(s, at) {
        return wide_space_end(s, at);
    }
    at
}
