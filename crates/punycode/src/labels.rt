// Labels: where one ends, whether it starts with xn--, and labels written as they are compared.
ghost use Rattle.std.specs.Prelude.{◌≡◌, ◌+◌, ◌≤◌};
ghost use Rattle.punycode_rules.specs.Labels.{prefixed, spelled, in_label, spelling, spelling_limit};
ghost use Rattle.punycode.specs.Internal.{Spells, Spelt};

use super::decoding::NoPoints;
use super::{Spelling, decoding, utf8};
use base_runs::ByteTest;

// The bytes of a label.
#[derive(Drop)]
struct InLabel;

impl ByteTest for InLabel {
    ghost passes = { λ t. in_label };

    fn passes(&self, b: u8) -> bool {
        b != b'.'
    }
}

// Whether a label starts with xn--, in either case.
fn is_prefixed(l: &[u8]) -> bool
    ensures { result ≡ prefixed l.now }
{
    matches!(l, [b'x' | b'X', b'n' | b'N', b'-', b'-', ..])
}

// Writes a label as it stands.
fn put_plain(l: &[u8], out: &mut [u8], to: usize) -> usize
    ensures { Spells out.old to l.now out.new result }
{
    if l.len() > Spelling::LONGEST {
        return Spelling::OVER;
    }
    text_write::put_text(l, out, to)
}

// Writes a label as it is compared.
fn put_label(l: &[u8], out: &mut [u8], to: usize) -> usize
    requires { to ≤ spelling_limit + 1 }
    ensures { Spells out.old to (spelled l.now) out.new result }
{
    if !is_prefixed(l) {
        return put_plain(l, out, to);
    }
    let mut points = [0u32; Spelling::LONGEST];
    match decoding::read_points(&l[4..], &mut points) {
        Ok(n) => utf8::put_points(&points[..n], out, to),
        Err(NoPoints::Failed) => put_plain(l, out, to),
        Err(NoPoints::Long) => Spelling::OVER,
    }
}

// Writes a text as it is compared, each label of it. A label is as long as it is read to be, so there is no range to go over.
pub(crate) fn put_spelling(t: &[u8], out: &mut [u8]) -> usize
    ensures { Spelt out.old 0 (spelling t.now) out.new result }
{
    let mut at: usize = 0;
    let mut n: usize = 0;
    loop {
        let e = InLabel.run_end(t, at);
        n += put_label(&t[at..e], out, n);
        if n > Spelling::LONGEST {
            return n;
        }
        if e == t.len() {
            return n;
        }
        text_write::put_byte(b'.', out, n);
        n += 1;
        at = e + 1;
    }
}
