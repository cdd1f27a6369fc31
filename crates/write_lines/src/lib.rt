// One report line, written as its piece of the body (02, ticket [1]).
//
// `put_line(s, at, out, to)` reads the line at a place of `s`, stores what it adds to a body in `out` from `to` on, as far as there is room,
// and answers the place after the line and the place after what it adds. Places in `out` stop at the largest one, so that no sum is too
// large. Where no line stands that a body can have, there is no answer, and it stores nothing.
#![tactic(auto)]

ghost use Rattle.std.specs.Prelude.{◌≡◌, ◌∷◌, ◌++◌};
ghost use Rattle.base_sequences.specs.Stored.{Clipped};
ghost use Rattle.base_readers.specs.Places.{from};
ghost use Rattle.write_rules.specs.Entries.{judged, id_entry, none_entry, method_entry, reason_entry, property_entry, entry};
ghost use Rattle.write_rules.specs.Bodies.{piece};
ghost use Rattle.write_columns.specs.Internal.{shown_reader};
ghost use Rattle.write_lines.specs.Internal.{written_shown, PiecePut, piece_at, bytes_at};

use write_columns::coded::Test;

// Stores two runs of bytes with a byte between them.
fn put_pair(a: &[u8], separator: u8, b: &[u8], out: &mut [u8], to: usize) -> usize
    ensures { Clipped out.old to (a.now ++ (separator ∷ b.now)) out.new result }
{
    let n = text_write::put_part(a, out, to);
    let m = text_write::put_byte(separator, out, n);
    text_write::put_part(b, out, m)
}

// A line that was read and what it adds to the body: the place after it, and the place after what was stored.
#[derive(Clone, Copy)]
pub struct Piece {
    pub end: usize,
    pub next: usize,
}

// The line `id`, text.
fn put_id(s: &[u8], at: usize, out: &mut [u8], to: usize) -> Option<Piece>
    ensures { PiecePut id_entry s.now at out.old to out.new result }
{
    if !write_columns::coded::is_literal(s, at, b"id\t") {
        return None;
    }
    let a = at + 3;
    let l = write_columns::coded::text_line(s, a, Test::Identifier);
    let end = l.end?;
    let n = text_write::put_byte(b' ', out, to);
    let m = write_texts::put_value(s, a, l.bare, out, n);
    Some(Piece { end, next: m })
}

// The line `none`.
fn put_none(s: &[u8], at: usize, out: &mut [u8], to: usize) -> Option<Piece>
    ensures { PiecePut none_entry s.now at out.old to out.new result }
{
    if !write_columns::coded::is_literal(s, at, b"none\n") {
        return None;
    }
    let n = text_write::put_part(b"; none", out, to);
    Some(Piece {
        end: at + 5,
        next: n,
    })
}

// Stores what a method and its result add to a body.
fn put_known(method: &[u8], res: &[u8], out: &mut [u8], to: usize) -> usize
    ensures { Clipped out.old to (piece (judged method.now res.now)) out.new result }
{
    let n = text_write::put_part(b"; ", out, to);
    put_pair(method, b'=', res, out, n)
}

// The line `m`, method, result.
fn put_method(s: &[u8], at: usize, out: &mut [u8], to: usize) -> Option<Piece>
    ensures { PiecePut method_entry s.now at out.old to out.new result }
{
    if !write_columns::coded::is_literal(s, at, b"m\t") {
        return None;
    }
    let a = at + 2;
    let e = write_columns::words::column_end(s, a, b'\t')?;
    let b = e + 1;
    let f = write_columns::words::column_end(s, b, b'\n')?;
    let method = &s[a..e];
    let result = &s[b..f];
    if !write_columns::words::is_known(method, result) {
        return None;
    }
    let n = put_known(method, result, out, to);
    Some(Piece {
        end: f + 1,
        next: n,
    })
}

// The line `r`, text.
fn put_reason(s: &[u8], at: usize, out: &mut [u8], to: usize) -> Option<Piece>
    ensures { PiecePut reason_entry s.now at out.old to out.new result }
{
    if !write_columns::coded::is_literal(s, at, b"r\t") {
        return None;
    }
    let b = at + 2;
    let l = write_columns::coded::text_line(s, b, Test::Token);
    let end = l.end?;
    let n = text_write::put_part(b" reason=", out, to);
    let m = write_texts::put_value(s, b, l.bare, out, n);
    Some(Piece { end, next: m })
}

// Stores what a property adds to a body, from its columns.
fn put_shown(t: &[u8], p: &[u8], k: u8, v: &[u8], out: &mut [u8], to: usize) -> usize
    ensures { Clipped out.old to (written_shown t.now p.now k v.now) out.new result }
{
    let a = text_write::put_byte(b' ', out, to);
    let b = put_pair(t, b'.', p, out, a);
    let c = text_write::put_byte(b'=', out, b);
    write_texts::put_pvalue(k, v, out, c)
}

// What stands behind ptype and property.
fn put_valued(t: &[u8], p: &[u8], s: &[u8], at: usize, out: &mut [u8], to: usize) -> Option<Piece>
    ensures { PiecePut (shown_reader t.now p.now) s.now at out.old to out.new result }
{
    let g = write_columns::shown::shown_end(t, p, s, at)?;
    let k = base_readers::byte(s, at, 0);
    let n = put_shown(t, p, k, &s[at + 2..g - 1], out, to);
    Some(Piece { end: g, next: n })
}

// The line `p`, ptype, property, kind letter, text.
fn put_property(s: &[u8], at: usize, out: &mut [u8], to: usize) -> Option<Piece>
    ensures { PiecePut property_entry s.now at out.old to out.new result }
{
    if !write_columns::coded::is_literal(s, at, b"p\t") {
        return None;
    }
    let a = at + 2;
    let e = write_columns::words::column_end(s, a, b'\t')?;
    let b = e + 1;
    let f = write_columns::words::column_end(s, b, b'\t')?;
    put_valued(&s[a..e], &s[b..f], s, f + 1, out, to)
}

// The line at a place, stored as its piece of the body: its first byte tells which line it may be.
pub fn put_line(s: &[u8], at: usize, out: &mut [u8], to: usize) -> Option<Piece>
    ensures value { result ≡ piece_at to (from entry s.now at) }
    ensures out_after { out.new ≡ bytes_at out.old to (from entry s.now at) }
{
    let b = base_readers::byte(s, at, 0);
    if b == b'i' {
        return put_id(s, at, out, to);
    }
    if b == b'n' {
        return put_none(s, at, out, to);
    }
    if b == b'm' {
        return put_method(s, at, out, to);
    }
    if b == b'r' {
        return put_reason(s, at, out, to);
    }
    put_property(s, at, out, to)
}
