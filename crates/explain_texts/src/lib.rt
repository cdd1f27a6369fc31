// A text of a column as a person is shown it.
//
// `put_text(part, out, to)` undoes the report's escaping of a column, any bytes, and shows a plain word as it is and any other text between quotes
// (`shown` in explain_rules). It stores as much of that as there is room for in `out` from `to` on, changes no other byte, and returns the place
// after the whole text, at most the largest place, which no buffer reaches.
#![tactic(auto)]

ghost use Rattle.std.specs.Prelude.{◌≡◌, ◌||◌, [], ◌∷◌, ◌/◌, ◌%◌, eqb};
ghost use Rattle.base_sequences.specs.Stored.{Clipped};
ghost use Rattle.base_readers.specs.Texts.{within};
ghost use Rattle.report_rules.specs.Report.{hex_digit};
ghost use Rattle.explain_rules.specs.Texts.{decoded, in_word, is_word, quoted_byte, quoted_bytes};
ghost use Rattle.explain_rules.specs.Explained.{shown};

// Whether a byte can stand in a plain word.
#[tactic(auto, unfolding(explain_rules::specs::Texts::in_word, base_readers::specs::Texts::within, base_readers::specs::Texts::one_of))]
fn in_word(b: u8) -> bool
    ensures { result ≡ in_word b }
{
    matches!(b, b'a'..=b'z' | b'A'..=b'Z' | b'0'..=b'9' | b'+' | b'-' | b'.' | b'/' | b'@' | b'_')
}

// Whether the text of a column is a plain word.
fn is_word(part: &[u8]) -> bool
    ensures { result ≡ is_word (decoded part.now) }
{
    let mut rest = part;
    while let Some((b, behind)) = explain_codes::split_first(rest) {
        if !in_word(b) {
            return false;
        }
        rest = behind;
    }
    part.len() != 0
}

// Whether a byte stands behind a backslash between quotes.
fn is_mark(b: u8) -> bool
    ensures { result ≡ (eqb b 34 || eqb b 92) }
{
    matches!(b, b'"' | b'\\')
}

// Whether a terminal can be shown a byte as it is.
#[tactic(auto, unfolding(base_readers::specs::Texts::within))]
fn is_printed(b: u8) -> bool
    ensures { result ≡ within 32 126 b }
{
    matches!(b, b' '..=b'~')
}

// The upper-case hex digit of the lower half of a byte.
fn hex_digit(b: u8) -> u8
    ensures { result ≡ hex_digit (b % 16) }
{
    let n = b % 16;
    if n < 10 {
        return b'0' + n;
    }
    b'A' + (n - 10)
}

// A byte by its two digits.
fn put_hex(b: u8, out: &mut [u8], to: usize) -> usize
    ensures { Clipped out.old to (92 ∷ 120 ∷ hex_digit (b / 16 % 16) ∷ hex_digit (b % 16) ∷ []) out.new result }
{
    let n = text_write::put_part(b"\\x", out, to);
    let m = text_write::put_byte(hex_digit(b / 16), out, n);
    text_write::put_byte(hex_digit(b), out, m)
}

// A byte between quotes.
fn put_quoted_byte(b: u8, out: &mut [u8], to: usize) -> usize
    ensures { Clipped out.old to (quoted_byte b) out.new result }
{
    if is_mark(b) {
        let n = text_write::put_byte(b'\\', out, to);
        return text_write::put_byte(b, out, n);
    }
    if is_printed(b) {
        return text_write::put_byte(b, out, to);
    }
    put_hex(b, out, to)
}

// The bytes of a column's text, as they stand between quotes.
fn put_quoted(part: &[u8], out: &mut [u8], to: usize) -> usize
    ensures { Clipped out.old to (quoted_bytes (decoded part.now)) out.new result }
{
    let mut n = to;
    let mut rest = part;
    while let Some((b, behind)) = explain_codes::split_first(rest) {
        n = put_quoted_byte(b, out, n);
        rest = behind;
    }
    n
}

// A text, by its column. Between quotes a plain word has the bytes that it has without.
pub fn put_text(part: &[u8], out: &mut [u8], to: usize) -> usize
    ensures { Clipped out.old to (shown part.now) out.new result }
{
    if is_word(part) {
        return put_quoted(part, out, to);
    }
    let a = text_write::put_byte(b'"', out, to);
    let b = put_quoted(part, out, a);
    text_write::put_byte(b'"', out, b)
}
