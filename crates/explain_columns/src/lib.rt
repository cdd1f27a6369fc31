// The columns of a line of the report of a block, and what the line is.
//
// `column(l)` is the first column of a line, `behind(l)` what stands behind the tab that ends it, and nothing where there is no tab;
// `kind_of_line(l)` is what the line is, by its first column; `until(s, at, b)` is the next place of a byte. `put_labelled` is handed a buffer and a
// place in it, any place. It stores as much of its text as there is room for from there on, changes no other byte, and returns the place after
// the whole text, at most the largest place, which no buffer reaches.
#![tactic(auto)]

ghost use Rattle.std.specs.Prelude.{◌≡◌, [], ◌∷◌, ◌++◌, ◌+◌, drop};
ghost use Rattle.base_sequences.specs.Stored.{Clipped};
ghost use Rattle.base_readers.specs.Readers.{run};
ghost use Rattle.explain_rules.specs.Explained.{column, behind, kind_of, kind_of_line, text};
ghost use Rattle.explain_columns.specs.Until.{except};

use base_runs::ByteTest;
use explain_rules::Line;

// Any byte but one.
#[derive(Drop)]
struct Except {
    byte: u8,
}

impl ByteTest for Except {
    ghost passes = { λ t. except t.byte };

    fn passes(&self, b: u8) -> bool {
        b != self.byte
    }
}

// The next place from this one on where a byte stands, or the end.
pub fn until(s: &[u8], at: usize, b: u8) -> usize
    ensures { result ≡ at + run (except b) (drop at s.now) }
{
    Except { byte: b }.run_end(s, at)
}

// The first column of a line.
pub fn column(l: &[u8]) -> &[u8]
    ensures { result.now ≡ column l.now }
{
    &l[..until(l, 0, b'\t')]
}

// What stands behind it.
pub fn behind(l: &[u8]) -> &[u8]
    ensures { result.now ≡ behind l.now }
{
    let e = until(l, 0, b'\t');
    if e < l.len() {
        return &l[e + 1..];
    }
    &l[..0]
}

// What a line is whose first column is one byte.
#[tactic(auto, unfolding(explain_rules::specs::Explained::kind_of, base_readers::specs::Texts::same))]
fn kind_of_letter(b: u8) -> Line
    ensures { result ≡ kind_of (b ∷ []) }
{
    match b {
        b'v' => Line::Version,
        b'm' => Line::Method,
        b'r' => Line::Reason,
        b'p' => Line::Property,
        _ => Line::Other,
    }
}

// What a line is, by its first column.
#[tactic(auto, unfolding(explain_rules::specs::Explained::kind_of))]
fn kind_of(w: &[u8]) -> Line
    ensures { result ≡ kind_of w.now }
{
    if w.len() == 1 {
        return kind_of_letter(w[0]);
    }
    if text_compare::exact::is_same(w, b"field") {
        return Line::Field;
    }
    if text_compare::exact::is_same(w, b"id") {
        return Line::Identifier;
    }
    if text_compare::exact::is_same(w, b"none") {
        return Line::NoResult;
    }
    Line::Other
}

// What a line is.
pub fn kind_of_line(l: &[u8]) -> Line
    ensures { result ≡ kind_of_line l.now }
{
    kind_of(column(l))
}

// A label as it is, and the text of the first column of a line as it is shown.
pub fn put_labelled(label: &[u8], l: &[u8], out: &mut [u8], to: usize) -> usize
    ensures { Clipped out.old to (label.now ++ text l.now) out.new result }
{
    let a = text_write::put_part(label, out, to);
    explain_texts::put_text(column(l), out, a)
}
