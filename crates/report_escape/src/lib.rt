// The texts of a report, escaped and written into a lent buffer: `put_escaped` writes a text, `put_quoted` that of a quoted string.
//
// A writer is handed a buffer and a place in it, any place. It stores as much of the text as there is room for from there on, changes no
// other byte, and returns the place after the whole text, at most the largest place, which no buffer reaches. Run on an empty buffer it only
// measures.
#![tactic(auto)]

ghost use Rattle.std.specs.Prelude.{◌≡◌, false, true, ◌+◌, ◌≤◌, length, drop};
ghost use Rattle.base_sequences.specs.Stored.{Clipped};
ghost use Rattle.base_readers.specs.Readers.{run};
ghost use Rattle.base_readers.specs.Places.{Reaches};
ghost use Rattle.lexis_rules.specs.Words.{quoted_text};
ghost use Rattle.report_rules.specs.Report.{escape};
ghost use Rattle.report_escape.specs.Internal.{verbatim};

use base_runs::ByteTest;
use lexis_rules::Class;

mod byte;

// The bytes that are written as they stand.
#[derive(Drop)]
struct Verbatim;

impl ByteTest for Verbatim {
    ghost passes = { λ t. verbatim };

    fn passes(&self, b: u8) -> bool {
        is_verbatim(b)
    }
}

// Whether a byte is written as it stands, in a quoted string or not. All tests are made, so that many bytes can be tested at once.
fn is_verbatim(b: u8) -> bool
    ensures { result ≡ verbatim b }
{
    (b >= 38) & (b != b'\\') & (b <= 126)
}

// Whether one of n bytes is not. There is no way out of the loop, so that it becomes a few wide compares.
fn has_stop(s: &[u8], at: usize, n: usize) -> bool
    requires { at + n ≤ length s.now }
    ensures { result ≡ false → Reaches (run verbatim) s.now at (at + n) }
{
    let mut hit = false;
    for j in 0..n {
        hit = hit | !is_verbatim(s[at + j]);
    }
    hit
}

// The end of the bytes that are written as they stand: eight bytes at a time.
fn verbatim_end(s: &[u8], at: usize) -> usize
    ensures { result ≡ at + run verbatim (drop at s.now) }
{
    base_runs::wide_run_end::<8, _>(s, at, &Verbatim)
}

// Whether all bytes of a text are written as they stand, eight at a time, the last eight over some that were tested before. No text of less
// than eight bytes is said to be so.
fn is_whole(s: &[u8]) -> bool
    ensures { result ≡ true → escape s.now ≡ s.now }
{
    let n = s.len();
    if n < 8 {
        return false;
    }
    for i in (0..n - 8).step_by(8) {
        if has_stop(s, i, 8) {
            return false;
        }
    }
    !has_stop(s, n - 8, 8)
}

// A text. Most often all its bytes are written as they stand; else those that are at once, the others one at a time.
pub fn put_escaped(text: &[u8], out: &mut [u8], to: usize) -> usize
    ensures { Clipped out.old to (escape text.now) out.new result }
{
    if is_whole(text) {
        return text_write::put_part(text, out, to);
    }
    // A `while`: a turn passes a run of bytes or one byte, so no index is counted.
    let mut i: usize = 0;
    let mut n = to;
    while i < text.len() {
        let b = text[i];
        if is_verbatim(b) {
            let e = verbatim_end(text, i);
            n = text_write::put_part(&text[i..e], out, n);
            i = e;
        } else {
            n = byte::put_escape(b, out, n);
            i += 1;
        }
    }
    n
}

// The text of the quoted string that starts at a place: bytes that are written as they stand at once, the other items one at a time. How far a turn goes is
// what it reads, so there is no range to go over.
pub fn put_quoted(s: &[u8], at: usize, out: &mut [u8], to: usize) -> usize
    ensures { Clipped out.old to (escape (quoted_text (drop at s.now))) out.new result }
{
    if at >= s.len() {
        return to;
    }
    let mut i = at + 1;
    let mut n = to;
    loop {
        if is_verbatim(base_readers::byte(s, i, 0)) {
            let e = verbatim_end(s, i);
            n = text_write::put_part(&s[i..e], out, n);
            i = e;
        } else {
            let k = lexis_classes::item_at(s, i, Class::Quoted);
            if k == 0 {
                return n;
            }
            n = byte::put_escape(base_readers::byte(s, i, k - 1), out, n);
            i += k;
        }
    }
}
