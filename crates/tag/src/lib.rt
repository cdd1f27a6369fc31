// One tag of a DKIM tag list (RFC 6376, 3.2), read at a place.
//
//   tag_at(s, at)        the tag behind the space at a place, by its places, if there is one
//   name_end(s, at)      the end of the bytes of a name
#![tactic(auto)]

ghost use Rattle.std.specs.Prelude.{◌≡◌, ◌+◌, drop};
ghost use Rattle.base_readers.specs.Readers.{run};
ghost use Rattle.lexis_rules.specs.Bytes.{letter};
ghost use Rattle.tag_rules.specs.Tags.{tag_name, tag_value, in_tag_name};
ghost use Rattle.tag.specs.Tags.{closed_at, tag_at};

use base_runs::ByteTest;
use lexis_rules::Class;

mod values;

// The bytes that may stand in a tag's name.
#[derive(Drop)]
struct NameByte;

impl ByteTest for NameByte {
    ghost passes = { λ t. in_tag_name };

    fn passes(&self, b: u8) -> bool {
        if b == b'_' {
            return true;
        }
        if b == b'-' {
            return false;
        }
        lexis_classes::in_class(Class::Keyword, b)
    }
}

// The end of the bytes of a name.
pub fn name_end(s: &[u8], at: usize) -> usize
    ensures { result ≡ at + run in_tag_name (drop at s.now) }
{
    NameByte.run_end(s, at)
}

// The end of the name of a tag.
fn tag_name_end(s: &[u8], at: usize) -> usize
    ensures { result ≡ at + tag_name (drop at s.now) }
{
    let b = base_readers::byte(s, at, 0);
    if is_letter(b) {
        return name_end(s, at);
    }
    at
}

// Whether a byte is a letter.
fn is_letter(b: u8) -> bool
    ensures { result ≡ letter b }
{
    if b < b'A' {
        return false;
    }
    lexis_classes::in_class(Class::Keyword, b)
}

// The end of the value of a tag, with the space around it: runs of plain bytes at once. How far a turn goes is what it reads, so there is no range to go over.
fn value_end(s: &[u8], at: usize) -> usize
    ensures { result ≡ at + tag_value (drop at s.now) }
{
    let mut i = at;
    loop {
        let e = values::plain_end(s, i);
        let n = lexis_classes::item_at(s, e, Class::Tag);
        if n == 0 {
            return e;
        }
        i = e + n;
    }
}

// A tag: its name from `start` up to `name_end`, its value with the space around it from `value_start` up to `value_end`, and the place
// after the ";" that ends it, if there is one.
#[derive(Clone, Copy)]
pub struct Tag {
    pub start: usize,
    pub name_end: usize,
    pub value_start: usize,
    pub value_end: usize,
    pub end: usize,
}

// A tag that ends with ";" or with the body.
fn closed(
    s: &[u8],
    start: usize,
    name_end: usize,
    value_start: usize,
    value_end: usize,
) -> Option<Tag>
    ensures { result ≡ closed_at s.now start name_end value_start value_end }
{
    if value_end >= s.len() {
        return Some(Tag {
            start,
            name_end,
            value_start,
            value_end,
            end: value_end,
        });
    }
    if s[value_end] == b';' {
        return Some(Tag {
            start,
            name_end,
            value_start,
            value_end,
            end: value_end + 1,
        });
    }
    None
}

// The tag at a place.
pub fn tag_at(s: &[u8], at: usize) -> Option<Tag>
    ensures { result ≡ tag_at s.now at }
{
    let a = lexis_classes::bare_space_end(s, at);
    let e = tag_name_end(s, a);
    if e == a {
        return None;
    }
    let b = lexis_classes::bare_space_end(s, e);
    if base_readers::is_at(s, b, 0, b'=') {
        return closed(s, a, e, b + 1, value_end(s, b + 1));
    }
    None
}
