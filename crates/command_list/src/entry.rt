// One entry of our own list: what is noticed of it, and its line.
//
// A writer stores as much of its text as there is room for in `out` from `to` on, changes no other byte, and returns the place after the whole text, at
// most the largest place, which no buffer reaches.
ghost use Rattle.std.specs.Prelude.{◌≡◌, ◌++◌, ◌+◌, drop};
ghost use Rattle.base_sequences.specs.Stored.{Clipped};
ghost use Rattle.base_readers.specs.Readers.{run};
ghost use Rattle.base_readers.specs.Texts.{bytes};
ghost use Rattle.identifier_rules.specs.Identifier.{identifier_byte};
ghost use Rattle.report_rules.specs.Report.{escape};
ghost use Rattle.command_list_rules.specs.Notices.{marked, notice_of, unbare, words, entry_front, notice_line, compared_line, line_of};

use base_runs::ByteTest;
use command_list_rules::{Notice, Said};

// Whether an entry begins with a byte order mark.
fn is_marked(e: &[u8]) -> bool
    ensures { result ≡ marked e.now }
{
    let a = base_readers::is_at(e, 0, 0, 0xEF);
    let b = base_readers::is_at(e, 0, 1, 0xBB);
    let c = base_readers::is_at(e, 0, 2, 0xBF);
    a & (b & c)
}

// The bytes that an identifier without quotes can have.
#[derive(Drop)]
struct Bare;

impl ByteTest for Bare {
    ghost passes = { λ _. identifier_byte };

    fn passes(&self, b: u8) -> bool {
        identifier::in_identifier(b)
    }
}

// The end of the bytes from a place on that an identifier without quotes can have.
fn bare_end(e: &[u8], at: usize) -> usize
    ensures { result ≡ at + run identifier_byte (drop at e.now) }
{
    Bare.run_end(e, at)
}

// What is noticed of an entry, if anything.
fn notice(e: &[u8]) -> Option<Notice>
    ensures { result ≡ notice_of e.now }
{
    if is_marked(e) {
        return Some(Notice::Mark);
    }
    if base_readers::is_at(e, 0, 0, b'#') {
        return Some(Notice::Hash);
    }
    if bare_end(e, 0) < e.len() {
        return Some(Notice::Unbare);
    }
    if explain_columns::until(e, 0, b'*') < e.len() {
        return Some(Notice::Star);
    }
    None
}

// The first byte that no identifier without quotes can have, if there is one.
fn put_unbare(e: &[u8], out: &mut [u8], to: usize) -> usize
    ensures { Clipped out.old to (bytes ": no bare identifier can have " ++ escape (unbare e.now)) out.new result }
{
    let i = bare_end(e, 0);
    let a = text_write::put_part(b": no bare identifier can have ", out, to);
    if i < e.len() {
        return report_escape::put_escaped(&e[i..i + 1], out, a);
    }
    a
}

// What is said of it.
fn put_words(k: Notice, e: &[u8], out: &mut [u8], to: usize) -> usize
    ensures { Clipped out.old to (words k e.now) out.new result }
{
    match k {
        Notice::Mark => text_write::put_part(b" begins with a byte order mark", out, to),
        Notice::Hash => text_write::put_part(
            b" begins with #, which begins no comment here",
            out,
            to,
        ),
        Notice::Unbare => put_unbare(e, out, to),
        Notice::Star => text_write::put_part(
            b": * stands for itself, not for other names",
            out,
            to,
        ),
    }
}

// The front of a line.
fn put_front(n: usize, out: &mut [u8], to: usize) -> usize
    ensures { Clipped out.old to (entry_front n) out.new result }
{
    let a = text_write::put_part(b"entry ", out, to);
    text_write::decimals::put_decimal(n as u64, out, a)
}

// What is noticed of an entry, behind a label.
fn put_notice(label: &[u8], n: usize, e: &[u8], out: &mut [u8], to: usize) -> usize
    ensures { Clipped out.old to (notice_line label.now n e.now) out.new result }
{
    let Some(k) = notice(e) else {
        return to;
    };
    let a = text_write::put_part(label, out, to);
    let b = put_front(n, out, a);
    let c = put_words(k, e, out, b);
    text_write::put_part(b"\n", out, c)
}

// How an entry is compared, by its text as it is compared.
fn put_compared(n: usize, t: &[u8], out: &mut [u8], to: usize) -> usize
    ensures { Clipped out.old to (compared_line n t.now) out.new result }
{
    let a = put_front(n, out, to);
    let b = text_write::put_part(b" is compared as ", out, a);
    let c = report_escape::put_escaped(t, out, b);
    text_write::put_part(b"\n", out, c)
}

// The line of a kind.
pub fn put_line(k: Said, n: usize, t: &[u8], out: &mut [u8], to: usize) -> usize
    ensures { Clipped out.old to (line_of k n t.now) out.new result }
{
    match k {
        Said::Compared => put_compared(n, t, out, to),
        Said::Noticed => put_notice(b"", n, t, out, to),
        Said::Noted => put_notice(b"orbendash: note: ", n, t, out, to),
    }
}
