// Texts, written as they stand or in lower case.
//
// A writer is handed a buffer and a place in it, any place. It stores as much of the text as there is room for from there on, changes
// no other byte, and returns the length of the whole text; `put_byte` and `put_part` return the place after it. Run on an empty buffer it
// only measures.
#![tactic(auto)]

ghost use Rattle.std.specs.Prelude.{[], ◌∷◌, map};
ghost use Rattle.base_sequences.specs.Stored.{Put, Clipped};
ghost use Rattle.lexis_rules.specs.Bytes.{lower};

pub mod decimals;
pub mod phrases;

// Writes a text. The room is measured once, so that the loop has no other test. A loop, and no `copy_from_slice`: of that the compiler makes a call of
// `memmove`, which the library for C would need from outside.
pub fn put_text(part: &[u8], out: &mut [u8], to: usize) -> usize
    ensures { Put out.old to part.now out.new result }
{
    let n = part.len().min(base_readers::rest(out.len(), to));
    for j in 0..n {
        out[to + j] = part[j];
    }
    part.len()
}

// Writes a text in lower case, in the same way.
pub fn put_lower(part: &[u8], out: &mut [u8], to: usize) -> usize
    ensures { Put out.old to (map lower part.now) out.new result }
{
    let n = part.len().min(base_readers::rest(out.len(), to));
    for j in 0..n {
        out[to + j] = text_compare::lower(part[j]);
    }
    part.len()
}

// Stores a byte, if there is room, and returns the place after it, at most the largest one.
pub fn put_byte(b: u8, out: &mut [u8], to: usize) -> usize
    ensures { Clipped out.old to (b ∷ []) out.new result }
{
    if to < out.len() {
        out[to] = b;
    }
    to.saturating_add(1)
}

// Stores as much of a text as there is room for, and returns the place after the whole text, at most the largest one.
pub fn put_part(part: &[u8], out: &mut [u8], to: usize) -> usize
    ensures { Clipped out.old to part.now out.new result }
{
    to.saturating_add(put_text(part, out, to))
}
