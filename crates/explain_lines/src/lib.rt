// One line of the report of a block, in words.
//
// `put_line(l, out, to)` says a line, any bytes, in words (`line_words` in explain_rules). It stores as much of that as there is room for in `out`
// from `to` on, changes no other byte, and returns the place after the whole text, at most the largest place, which no buffer reaches.
#![tactic(auto)]

ghost use Rattle.base_sequences.specs.Stored.{Clipped};
ghost use Rattle.explain_rules.specs.Explained.{method_words, property_words, words, line_words};

use explain_rules::Line;

// Method and result.
fn put_method(l: &[u8], out: &mut [u8], to: usize) -> usize
    ensures { Clipped out.old to (method_words l.now) out.new result }
{
    let a = explain_columns::put_labelled(b"  says ", l, out, to);
    explain_columns::put_labelled(b": ", explain_columns::behind(l), out, a)
}

// A property: the letter of its value's kind is passed over.
fn put_property(l: &[u8], out: &mut [u8], to: usize) -> usize
    ensures { Clipped out.old to (property_words l.now) out.new result }
{
    let a = explain_columns::put_labelled(b", ", l, out, to);
    let name = explain_columns::behind(l);
    let b = explain_columns::put_labelled(b".", name, out, a);
    let letter = explain_columns::behind(name);
    explain_columns::put_labelled(b": ", explain_columns::behind(letter), out, b)
}

// A line of a kind, by what stands behind its first column.
#[tactic(auto, unfolding(explain_rules::specs::Explained::words))]
fn put_words(k: Line, l: &[u8], out: &mut [u8], to: usize) -> usize
    ensures { Clipped out.old to (words k l.now) out.new result }
{
    match k {
        Line::Field => explain_fields::put_field(l, out, to),
        Line::Identifier => explain_columns::put_labelled(b"  says it was checked by ", l, out, to),
        Line::Version => explain_columns::put_labelled(b"  says header version ", l, out, to),
        Line::NoResult => text_write::put_part(b"  says that nothing was checked", out, to),
        Line::Method => put_method(l, out, to),
        Line::Reason => explain_columns::put_labelled(b", reason: ", l, out, to),
        Line::Property => put_property(l, out, to),
        Line::Other => to,
    }
}

// A line, in words.
pub fn put_line(l: &[u8], out: &mut [u8], to: usize) -> usize
    ensures { Clipped out.old to (line_words l.now) out.new result }
{
    put_words(
        explain_columns::kind_of_line(l),
        explain_columns::behind(l),
        out,
        to,
    )
}
