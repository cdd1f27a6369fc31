// Names of tags, each by the place of its first byte in a body, and how they stand to a name.
//
//   compare(s, at, name)         how the name at a place stands to another in the order of their bytes
//   is_named(s, at, name)        whether it is this name
//   narrow(x)                    the entry of a table of names for a place
//   bucket(name)                 a number below 32,768 that is made of the bytes of a name
#![tactic(auto)]

ghost use Rattle.std.specs.Prelude.{◌≡◌, ◌%◌, drop};
ghost use Rattle.base_readers.specs.Texts.{starts};
ghost use Rattle.tag_rules.specs.Tags.{in_tag_name};
ghost use Rattle.tag_names.specs.Names.{compared_at, same_at, bucket_of};

use std::cmp::Ordering;

pub mod required;

// Whether the byte at a place is one of a name.
fn in_name(s: &[u8], at: usize) -> bool
    ensures { result ≡ starts in_tag_name (drop at s.now) }
{
    if at >= s.len() {
        return false;
    }
    tag::name_end(&s[..at + 1], at) > at
}

// How the name at a place stands to another. Where they differ, and behind the other, the byte at hand tells whether the name goes on.
pub fn compare(s: &[u8], at: usize, name: &[u8]) -> Ordering
    ensures { result ≡ compared_at (drop at s.now) name.now }
{
    let mut i = at;
    for b in name {
        if i >= s.len() {
            return Ordering::Less;
        }
        if s[i] < *b {
            return Ordering::Less;
        }
        if s[i] > *b {
            return if in_name(s, i) {
                Ordering::Greater
            } else {
                Ordering::Less
            };
        }
        i += 1;
    }
    if in_name(s, i) {
        return Ordering::Greater;
    }
    Ordering::Equal
}

// Whether the name at a place is this one.
pub fn is_named(s: &[u8], at: usize, name: &[u8]) -> bool
    ensures { result ≡ same_at s.now at name.now }
{
    compare(s, at, name).is_eq()
}

// The entry for a place: one below 65,536 as it is, and of any other what is left of it by 65,536.
pub fn narrow(x: usize) -> u16
    ensures { result ≡ x % 65536 }
{
    (x % 65536) as u16
}

// A number below 32,768 that is made of the bytes of a name, so that few names of a list have the same.
pub fn bucket(name: &[u8]) -> usize
    ensures { result ≡ bucket_of name.now }
{
    let mut h: usize = 0;
    for b in name {
        h = (h + usize::from(*b)) * 10368889 % 16777216;
    }
    h / 512
}
