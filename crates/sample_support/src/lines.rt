// The parts of the line that a program writes of a case.
//
//   put_number(label, n, out, at)        a number behind its name
//   put_sums(lent, written, out, at)     what holds of lent bytes of which so many were written: a sum of these, and how many of the others are changed
//   put_text(s, out, at)                 the first 256 bytes, shown
//   put_bytes(lent, written, out, at)    the sums, and the first 256 of the bytes that were written, shown
//
// Each stores as much of its part as there is room for in `out` from `at` on, changes no other byte, and returns the place after what is stored: the line so far
// is `&out[..n]`.
ghost use Rattle.std.specs.Prelude.{take};
ghost use Rattle.base_sequences.specs.Stored.{Clipped};
ghost use Rattle.sample_support.specs.Samples.{shown, Front, Filled};
ghost use Rattle.sample_support.specs.Lines.{numbered, sums_part, text_part, bytes_part};

// The most bytes that are shown.
const MOST_SHOWN: usize = 256;

// Stores a number behind its name.
pub fn put_number(label: &[u8], n: u64, out: &mut [u8], at: usize) -> usize
    ensures filled { Filled out.old at (numbered label.now n) out.new result }
    ensures front { Front result out.new }
{
    let a = text_write::put_part(label, out, at);
    let b = text_write::decimals::put_decimal(n, out, a);
    super::front(out, b)
}

// Stores the Adler-32 sum of the bytes that were written, and how many of the lent bytes past them are no longer 170.
pub fn put_sums(lent: &[u8], written: usize, out: &mut [u8], at: usize) -> usize
    ensures filled { Filled out.old at (sums_part lent.now written) out.new result }
    ensures front { Front result out.new }
{
    let n = super::front(lent, written);
    let sum = sample_sums::adler(&lent[..n]);
    let changed = sample_sums::changed(&lent[n..]);
    let a = put_number(b", check ", sum, out, at);
    put_number(b" changed ", changed as u64, out, a)
}

// Stores the first bytes, shown, and returns the place after all of that.
fn put_first(s: &[u8], out: &mut [u8], to: usize) -> usize
    ensures { Clipped out.old to (shown (take 256 s.now)) out.new result }
{
    let first = super::front(s, MOST_SHOWN);
    let mut text = super::buffers::text();
    let n = super::shown(&s[..first], &mut text);
    text_write::put_part(&text[..n], out, to)
}

// Stores the first bytes, shown and between brackets.
pub fn put_text(s: &[u8], out: &mut [u8], at: usize) -> usize
    ensures filled { Filled out.old at (text_part s.now) out.new result }
    ensures front { Front result out.new }
{
    let a = text_write::put_part(b" text [", out, at);
    let b = put_first(s, out, a);
    let c = text_write::put_byte(b']', out, b);
    super::front(out, c)
}

// Stores what `put_sums` stores, and behind it the first of the bytes that were written, as `put_text` does.
pub fn put_bytes(lent: &[u8], written: usize, out: &mut [u8], at: usize) -> usize
    ensures filled { Filled out.old at (bytes_part lent.now written) out.new result }
    ensures front { Front result out.new }
{
    let n = super::front(lent, written);
    let a = put_sums(lent, written, out, at);
    put_text(&lent[..n], out, a)
}
