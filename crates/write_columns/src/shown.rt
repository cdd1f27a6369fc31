// Property values in their columns, and whether a body can have them (02, ticket [1]).
//
//   last_sign(part)              the place of the last "@" of a text, or its length
//   shown_end(t, p, s, at)       the place after the LF behind a kind letter and a text that may be reported of this ptype and property, if
//                                they stand there
ghost use Rattle.std.specs.Prelude.{◌≡◌, ◌&&◌, length};
ghost use Rattle.base_readers.specs.Texts.{bytes, one_of};
ghost use Rattle.result_rules.specs.Table.{listed, ptypes};
ghost use Rattle.result_rules.specs.Results as Kind;
ghost use Rattle.result_rules.specs.Results.{domain};
ghost use Rattle.write_rules.specs.Entries.{whole, is_keyword, local_of, kind_of, stands, allowed};
ghost use Rattle.write_columns.specs.Internal.{text_of, IsCoded, made, ValueEnd, ShownAt};

use super::coded::Test;

// Whether a text is a domain, all of it.
fn is_domain(d: &[u8]) -> bool
    ensures { result ≡ whole domain d.now }
{
    if d.len() == 0 {
        return false;
    }
    result_values::domains::domain_end(d, 0) == d.len()
}

// The place of the last "@" of a text; its length where there is none.
pub fn last_sign(part: &[u8]) -> usize
    ensures { result ≡ length (local_of part.now) }
{
    let mut rest = part;
    while let Some((last, front)) = rest.split_last() {
        if *last == b'@' {
            return front.len();
        }
        rest = front;
    }
    part.len()
}

// Whether a column is the text of a mailbox.
fn is_mailbox(v: &[u8]) -> bool
    requires { IsCoded v.now }
    ensures { result ≡ stands Kind.Mailbox (text_of v.now) }
{
    let j = last_sign(v);
    if j < v.len() {
        if super::coded::is_each(&v[..j], 0, Test::Text) {
            return is_domain(&v[j + 1..]);
        }
    }
    false
}

// Whether a column is the text of an at-domain.
fn is_at_domain(v: &[u8]) -> bool
    requires { IsCoded v.now }
    ensures { result ≡ stands Kind.AtDomain (text_of v.now) }
{
    if base_readers::is_at(v, 0, 0, b'@') {
        return is_domain(&v[1..]);
    }
    false
}

// Whether a column is the text of a property value of the kind of a letter.
fn is_standing(k: u8, v: &[u8]) -> bool
    requires { IsCoded v.now }
    ensures { result ≡ stands (kind_of k) (text_of v.now) }
{
    if k == b't' {
        return super::coded::is_bare(v, 0, Test::Token);
    }
    if k == b'q' {
        return super::coded::is_each(v, 0, Test::Text);
    }
    if k == b'm' {
        return is_mailbox(v);
    }
    is_at_domain(v)
}

// Whether a ptype and a property, as they stand, may be reported.
fn is_label(t: &[u8], p: &[u8]) -> bool
    ensures { result ≡ (listed ptypes t.now && is_keyword p.now) }
{
    if super::words::is_lower(t) {
        if result_table::is_ptype(t) {
            return super::words::is_keyword(p);
        }
    }
    false
}

// Whether a byte is the letter of a kind.
fn is_kind(b: u8) -> bool
    ensures { result ≡ one_of (bytes "tqma") b }
{
    if b == b't' {
        return true;
    }
    if b == b'q' {
        return true;
    }
    if b == b'm' {
        return true;
    }
    b == b'a'
}

// The place after the LF behind a kind letter and a text, whatever they say.
fn value_end(s: &[u8], at: usize) -> Option<usize>
    ensures { ValueEnd s.now at result }
{
    if is_kind(base_readers::byte(s, at, 0)) {
        if base_readers::is_at(s, at, 1, b'\t') {
            let x = super::coded::text_at(s, at + 2, Test::Text);
            if base_readers::is_at(s, x.end, 0, b'\n') {
                return Some(x.end + 1);
            }
        }
    }
    None
}

// Whether a property may be reported.
fn is_allowed(t: &[u8], p: &[u8], k: u8, v: &[u8]) -> bool
    requires { IsCoded v.now }
    ensures { result ≡ allowed (made t.now p.now (kind_of k) (text_of v.now)) }
{
    if is_label(t, p) {
        return is_standing(k, v);
    }
    false
}

// The place after the LF behind a kind letter and a text that may be reported of this ptype and property.
pub fn shown_end(t: &[u8], p: &[u8], s: &[u8], at: usize) -> Option<usize>
    ensures { ShownAt t.now p.now s.now at result }
{
    let g = value_end(s, at)?;
    let k = base_readers::byte(s, at, 0);
    if is_allowed(t, p, k, &s[at + 2..g - 1]) {
        return Some(g);
    }
    None
}
