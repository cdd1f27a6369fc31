// The texts of report lines, written bare or as quoted strings (02, ticket [1]).
//
//   put_value(s, at, bare, out, to)  the coded text at a place of `s`: bare, or between quotes, with a backslash before each byte that needs one
//   put_pvalue(k, v, out, to)        the property value whose column is `v`, of the kind of a letter
//
// Each stores in `out` from `to` on, as far as there is room, and answers the place after what it adds, at most the largest place.
#![tactic(auto)]

ghost use Rattle.std.specs.Prelude.{◌≡◌, [], ◌∷◌, drop};
ghost use Rattle.base_sequences.specs.Stored.{Clipped};
ghost use Rattle.base_readers.specs.Texts.{bytes, one_of};
ghost use Rattle.write_rules.specs.Bodies.{bare_or};
ghost use Rattle.write_columns.specs.Internal.{text_of};
ghost use Rattle.write_texts.specs.Internal.{guarded_if};
ghost use Rattle.write_texts.specs.Values.{written_local, written_mailbox, written_value};

use write_columns::coded::Test;

// Whether a byte needs a backslash between quotes.
fn is_guarded(b: u8) -> bool
    ensures { result ≡ one_of (bytes "\"\\") b }
{
    if b == b'"' {
        return true;
    }
    b == b'\\'
}

// Stores a byte of a text, with a backslash in front of it where it is written between quotes and needs one.
fn put_guarded(b: u8, quoted: bool, out: &mut [u8], to: usize) -> usize
    ensures { Clipped out.old to (guarded_if quoted (b ∷ [])) out.new result }
{
    if quoted {
        if is_guarded(b) {
            let n = text_write::put_byte(b'\\', out, to);
            return text_write::put_byte(b, out, n);
        }
        return text_write::put_byte(b, out, to);
    }
    text_write::put_byte(b, out, to)
}

// Stores the text at a place, as it is written between quotes or bare.
fn put_text(s: &[u8], at: usize, quoted: bool, out: &mut [u8], to: usize) -> usize
    ensures { Clipped out.old to (guarded_if quoted (text_of (drop at s.now))) out.new result }
{
    let mut i = at;
    let mut m = to;
    while let Some(c) = write_columns::coded::code_at(s, i) {
        m = put_guarded(c.value, quoted, out, m);
        i += c.size;
    }
    m
}

// Stores the text at a place, bare or as a quoted string.
pub fn put_value(s: &[u8], at: usize, bare: bool, out: &mut [u8], to: usize) -> usize
    ensures { Clipped out.old to (bare_or bare (text_of (drop at s.now))) out.new result }
{
    if bare {
        return put_text(s, at, false, out, to);
    }
    let n = text_write::put_byte(b'"', out, to);
    let m = put_text(s, at, true, out, n);
    text_write::put_byte(b'"', out, m)
}

// Stores the local part of a mailbox, bare or as a quoted string.
fn put_local(l: &[u8], out: &mut [u8], to: usize) -> usize
    ensures { Clipped out.old to (written_local l.now) out.new result }
{
    if write_columns::coded::is_bare(l, 0, Test::Local) {
        return put_value(l, 0, result_values::domains::has_single_dots(l), out, to);
    }
    put_value(l, 0, false, out, to)
}

// Stores a mailbox.
fn put_mailbox(v: &[u8], out: &mut [u8], to: usize) -> usize
    ensures { Clipped out.old to (written_mailbox v.now) out.new result }
{
    let j = write_columns::shown::last_sign(v);
    let n = put_local(&v[..j], out, to);
    text_write::put_part(&v[j..], out, n)
}

// Stores a property value of the kind of a letter.
pub fn put_pvalue(k: u8, v: &[u8], out: &mut [u8], to: usize) -> usize
    ensures { Clipped out.old to (written_value k v.now) out.new result }
{
    if k == b't' {
        return put_value(v, 0, true, out, to);
    }
    if k == b'q' {
        return put_value(v, 0, false, out, to);
    }
    if k == b'm' {
        return put_mailbox(v, out, to);
    }
    text_write::put_part(v, out, to)
}
