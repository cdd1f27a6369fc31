// The lines that the report of a block has for a field beside the report of its body, each written into a lent buffer: `put_line` that of the field,
// `put_identifier` that of its identifier.
//
// A writer is handed a buffer and a place in it, any place. It stores as much of the line as there is room for from there on, changes no other
// byte, and returns the place after the whole line, at most the largest place, which no buffer reaches. Run on an empty buffer it only measures.
#![tactic(auto)]

ghost use Rattle.std.specs.Prelude.{◌≡◌, ◌∷◌, ◌+◌, min};
ghost use Rattle.base_sequences.specs.Stored.{cap, Clipped};
ghost use Rattle.text_decimals_rules.specs.Decimals.{decimal};
ghost use Rattle.identifier_rules.specs.Identifier.{identifier};
ghost use Rattle.identifier.specs.Answers.{text_of};
ghost use Rattle.report_rules.specs.Report.{id_line};
ghost use Rattle.blockreport_rules.specs.FieldLines.{word_of, field_line, identifier_line};

use identifier::Identifier;
use ownlist_rules::Own;

// The largest place: no buffer reaches it.
const LARGEST: usize = 18446744073709551615;

// The place that so many bytes behind a place lead to, at most the largest one.
pub fn sum(a: usize, b: usize) -> usize
    ensures { result ≡ min (a + b) cap }
{
    if b < LARGEST - a {
        return a + b;
    }
    LARGEST
}

// A tab and the decimal digits of a number.
fn put_number(n: usize, out: &mut [u8], to: usize) -> usize
    ensures { Clipped out.old to (9 ∷ decimal n) out.new result }
{
    let a = text_write::put_byte(b'\t', out, to);
    text_write::decimals::put_decimal(n as u64, out, a)
}

// A tab and the word for whose an identifier is.
fn put_whose(o: Own, out: &mut [u8], to: usize) -> usize
    ensures { Clipped out.old to (9 ∷ word_of o) out.new result }
{
    match o {
        Own::Ours => text_write::put_part(b"\town", out, to),
        Own::Others => text_write::put_part(b"\tother", out, to),
        Own::Unreadable => text_write::put_part(b"\tunreadable", out, to),
    }
}

// The line of the n-th field: whose its identifier is, the number of its answer and how many of its results are ignored.
pub fn put_line(n: usize, o: Own, number: u8, ignored: usize, out: &mut [u8], to: usize) -> usize
    ensures { Clipped out.old to (field_line n o number ignored) out.new result }
{
    let a = text_write::put_part(b"field", out, to);
    let b = put_number(n, out, a);
    let c = put_whose(o, out, b);
    let d = put_number(number as usize, out, c);
    let e = put_number(ignored, out, d);
    text_write::put_byte(b'\n', out, e)
}

// The line of an identifier that stands from a up to e, quoted or not. With no room left it is only measured.
fn put_id_from(body: &[u8], a: usize, e: usize, quoted: bool, out: &mut [u8], to: usize) -> usize
    ensures { Clipped out.old to (id_line (text_of body.now a e quoted)) out.new result }
{
    if to > out.len() {
        let mut none = [0u8; 1];
        return sum(to, report_lines::put_id(body, a, e, quoted, &mut none[..0]));
    }
    let n = report_lines::put_id(body, a, e, quoted, &mut out[to..]);
    sum(to, n)
}

// The line of the identifier of a body; of one that can't be read nothing.
pub fn put_identifier(body: &[u8], out: &mut [u8], to: usize) -> usize
    ensures { Clipped out.old to (identifier_line (identifier body.now)) out.new result }
{
    let Identifier::Readable { start, end, quoted } = identifier::identify(body) else {
        return to;
    };
    put_id_from(body, start, end, quoted, out, to)
}
