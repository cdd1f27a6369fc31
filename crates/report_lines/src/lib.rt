// The lines of a report, each written into a lent buffer: `put_id` that of the identifier, `put_version` of a header version, `put_none` of
// the word none, `put_method` of a method and its result, `put_reason` of a reason, `put_property` of a property.
//
// A text is told by the place where it starts and the one where it ends, any places: of what would stand past the end nothing is written. A
// writer is handed a buffer and a place in it, any place (`put_id` writes from the start). It stores as much of the line as there is room
// for from there on, changes no other byte, and returns the place after the whole line, at most the largest place, which no buffer reaches.
// Run on an empty buffer it only measures.
#![tactic(auto)]

ghost use Rattle.std.specs.Prelude.{◌≡◌, ◌∷◌, map};
ghost use Rattle.base_sequences.specs.Stored.{Clipped};
ghost use Rattle.lexis_rules.specs.Bytes.{lower};
ghost use Rattle.identifier.specs.Answers.{text_of};
ghost use Rattle.result_values.specs.Values.{value_of};
ghost use Rattle.base_sequences.specs.Spans.{span};
ghost use Rattle.report_rules.specs.Report.{escape, id_line, version_line, none_line};
ghost use Rattle.report_lines.specs.Internal.{parts_of, domain_text};
ghost use Rattle.report_lines.specs.Lines.{value_columns, method_text, reason_text, property_text};

use result_values::Value;

// The largest place: no buffer reaches it.
const LARGEST: usize = 18446744073709551615;

// The text of a value from a up to e, quoted or not.
fn put_value_text(s: &[u8], a: usize, e: usize, quoted: bool, out: &mut [u8], to: usize) -> usize
    ensures { Clipped out.old to (escape (text_of s.now a e quoted)) out.new result }
{
    if quoted {
        return report_escape::put_quoted(s, a, out, to);
    }
    report_escape::put_escaped(text_parts::part(s, a, e), out, to)
}

// A tab and the keyword from a up to e in lower case.
fn put_keyword(s: &[u8], a: usize, e: usize, out: &mut [u8], to: usize) -> usize
    ensures { Clipped out.old to (9 ∷ map lower (span s.now a e)) out.new result }
{
    let n = text_write::put_byte(b'\t', out, to);
    let k = text_write::put_lower(text_parts::part(s, a, e), out, n);
    if k < LARGEST - n {
        return n + k;
    }
    LARGEST
}

// What is written of a property value: its letter, its text from start up to end, and where it is signed "@" and the domain behind end up
// to last.
#[derive(Drop)]
struct Parts {
    letter: u8,
    start: usize,
    end: usize,
    quoted: bool,
    signed: bool,
    last: usize,
}

// The parts of a property value by its kind.
fn parts_of(v: Value) -> Parts
    ensures { result ≡ parts_of v }
{
    match v {
        Value::Token { start, end } => Parts {
            letter: b't',
            start,
            end,
            quoted: false,
            signed: false,
            last: end,
        },
        Value::Quoted { start, end } => Parts {
            letter: b'q',
            start,
            end,
            quoted: true,
            signed: false,
            last: end,
        },
        Value::Mailbox {
            start,
            sign,
            end,
            quoted,
        } => Parts {
            letter: b'm',
            start,
            end: sign,
            quoted,
            signed: true,
            last: end,
        },
        Value::AtDomain { start, end } => Parts {
            letter: b'a',
            start,
            end: start,
            quoted: false,
            signed: true,
            last: end,
        },
    }
}

// Where a value is signed, "@" and the domain behind its place up to e, and else nothing.
fn put_domain(s: &[u8], signed: bool, sign: usize, e: usize, out: &mut [u8], to: usize) -> usize
    ensures { Clipped out.old to (escape (domain_text s.now signed sign e)) out.new result }
{
    if signed {
        let n = text_write::put_byte(b'@', out, to);
        if sign < e {
            return report_escape::put_escaped(text_parts::part(s, sign + 1, e), out, n);
        }
        return n;
    }
    to
}

// A tab, the letter of a property value, a tab, its text and LF.
fn put_value(s: &[u8], v: Value, out: &mut [u8], to: usize) -> usize
    ensures { Clipped out.old to (value_columns (value_of s.now v)) out.new result }
{
    let p = parts_of(v);
    let kind = [b'\t', p.letter, b'\t'];
    let n = text_write::put_part(&kind, out, to);
    let m = put_value_text(s, p.start, p.end, p.quoted, out, n);
    let k = put_domain(s, p.signed, p.end, p.last, out, m);
    text_write::put_byte(b'\n', out, k)
}

// The line of a property whose ptype stands from a up to e and whose name from b up to f.
pub fn put_property(
    s: &[u8],
    a: usize,
    e: usize,
    b: usize,
    f: usize,
    v: Value,
    out: &mut [u8],
    to: usize,
) -> usize
    ensures { Clipped out.old to (property_text s.now a e b f v) out.new result }
{
    let n = text_write::put_byte(b'p', out, to);
    let m = put_keyword(s, a, e, out, n);
    let k = put_keyword(s, b, f, out, m);
    put_value(s, v, out, k)
}

// The line of a method from a up to e with its result from b up to f.
pub fn put_method(
    s: &[u8],
    a: usize,
    e: usize,
    b: usize,
    f: usize,
    out: &mut [u8],
    to: usize,
) -> usize
    ensures { Clipped out.old to (method_text s.now a e b f) out.new result }
{
    let n = text_write::put_byte(b'm', out, to);
    let m = put_keyword(s, a, e, out, n);
    let k = put_keyword(s, b, f, out, m);
    text_write::put_byte(b'\n', out, k)
}

// The line of a reason whose value stands from a up to e, quoted or not.
pub fn put_reason(s: &[u8], a: usize, e: usize, quoted: bool, out: &mut [u8], to: usize) -> usize
    ensures { Clipped out.old to (reason_text s.now a e quoted) out.new result }
{
    let n = text_write::put_part(b"r\t", out, to);
    let m = put_value_text(s, a, e, quoted, out, n);
    text_write::put_byte(b'\n', out, m)
}

// The line of an identifier that stands from a up to e, quoted or not, over the front of the buffer.
pub fn put_id(s: &[u8], a: usize, e: usize, quoted: bool, out: &mut [u8]) -> usize
    ensures { Clipped out.old 0 (id_line (text_of s.now a e quoted)) out.new result }
{
    let n = text_write::put_part(b"id\t", out, 0);
    let m = put_value_text(s, a, e, quoted, out, n);
    text_write::put_byte(b'\n', out, m)
}

// The line of a header version by its digits.
pub fn put_version(digits: &[u8], out: &mut [u8], to: usize) -> usize
    ensures { Clipped out.old to (version_line digits.now) out.new result }
{
    let n = text_write::put_part(b"v\t", out, to);
    let m = text_write::put_part(digits, out, n);
    text_write::put_byte(b'\n', out, m)
}

// The line of the word none.
pub fn put_none(out: &mut [u8], to: usize) -> usize
    ensures { Clipped out.old to none_line out.new result }
{
    text_write::put_part(b"none\n", out, to)
}
