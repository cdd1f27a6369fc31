// The report of a block in words, for a person.
//
// `put_explained(lines, out, to)` is handed the lines that `blockreport::report_block` writes, any bytes, and says them in words (`explained` in
// explain_rules). It stores as much of that as there is room for in `out` from `to` on, changes no other byte, and returns the place after the
// whole text, at most the largest place, which no buffer reaches. Every byte that it stores is LF or one of 32 to 126.
#![tactic(auto)]

ghost use Rattle.std.specs.Prelude.{◌≡◌, cond, [], ◌∷◌, ◌<◌, length, IfNone, IfSome};
ghost use Rattle.base_sequences.specs.Stored.{Clipped};
ghost use Rattle.base_readers.specs.Lines.{lines_of};
ghost use Rattle.explain_rules.specs.Explained.{goes_on, ended, lines_words, explained};

use explain_rules::Line;

// Whether what a line says stands in the line before it.
#[tactic(auto, unfolding(explain_rules::specs::Explained::goes_on))]
fn goes_on(k: Line) -> bool
    ensures { result ≡ goes_on k }
{
    matches!(k, Line::Reason | Line::Property)
}

// The first line, and what is behind the LF that ends it, if there is one; no line where nothing is left.
pub fn split_line(s: &[u8]) -> Option<(&[u8], &[u8])>
    ensures none { IfNone result (lines_of s.now ≡ []) }
    ensures line { IfSome result (λ r. lines_of s.now ≡ r.0.now ∷ lines_of r.1.now) }
    ensures shorter { IfSome result (λ r. length r.1.now < length s.now) }
{
    if s.len() == 0 {
        return None;
    }
    let e = explain_columns::until(s, 0, b'\n');
    if e < s.len() {
        return Some((&s[..e], &s[e + 1..]));
    }
    Some((s, &s[..0]))
}

// Whether what the first line says stands in the line before it; where there is none, it does not.
#[tactic(auto, unfolding(explain_rules::specs::Explained::ended))]
fn is_behind(s: &[u8]) -> bool
    ensures { ended (lines_of s.now) ≡ cond result [] (10 ∷ []) }
{
    match split_line(s) {
        Some((line, _)) => goes_on(explain_columns::kind_of_line(line)),
        None => false,
    }
}

// The end of what was said before these lines, where there are any or none.
fn put_end(s: &[u8], out: &mut [u8], to: usize) -> usize
    ensures { Clipped out.old to (ended (lines_of s.now)) out.new result }
{
    if is_behind(s) {
        return to;
    }
    text_write::put_byte(b'\n', out, to)
}

// All lines.
fn put_lines(s: &[u8], out: &mut [u8], to: usize) -> usize
    ensures { Clipped out.old to (lines_words (lines_of s.now)) out.new result }
{
    let mut n = to;
    let mut rest = s;
    while let Some((line, behind)) = split_line(rest) {
        let a = explain_lines::put_line(line, out, n);
        n = put_end(behind, out, a);
        rest = behind;
    }
    n
}

// The lines of the report of a block, in words.
pub fn put_explained(lines: &[u8], out: &mut [u8], to: usize) -> usize
    ensures { Clipped out.old to (explained lines.now) out.new result }
{
    if lines.len() == 0 {
        return text_write::put_part(b"There is no Authentication-Results field.\n", out, to);
    }
    put_lines(lines, out, to)
}
