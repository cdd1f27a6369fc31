// What a field adds to the report of a block: for a field named Authentication-Results its line, the report of its body and what the detail adds, for any
// other nothing.
//
// The writers take a body and a buffer of any length. A body of more than 65,536 bytes has a line with number 1 and no report. Of a line as much is
// stored as there is room for; a report is stored where there is room for all of it.
#![tactic(auto)]

ghost use Rattle.std.specs.Prelude.{◌≡◌, ◌+◌, min, length};
ghost use Rattle.base_sequences.specs.Stored.{cap, Clipped};
ghost use Rattle.base_readers.specs.Lines.{lines_of};
ghost use Rattle.ownlist_rules.specs.Spelled.{own_of_spelled};
ghost use Rattle.identifier_rules.specs.Identifier.{identifier};
ghost use Rattle.report_rules.specs.Report.{report};
ghost use Rattle.blockreport_rules.specs.declared.Detail.TheVariants.{Reported};
ghost use Rattle.blockreport_rules.specs.BlockReport.{detail_line};
ghost use Rattle.blockreport_fields.specs.Addends.{body_addend, field_addend, place_after, if_room, buffer_after};

use base_answers::Number;
use blockreport_rules::Detail;
use ownlist_rules::Own;

// Writes the report of a body, which has `size` bytes, from a place on, where there is room for all of it.
fn put_report(body: &[u8], size: usize, out: &mut [u8], to: usize) -> usize
    requires { size ≡ length (report body.now cap).written }
    ensures value { result ≡ min (to + length (report body.now cap).written) cap }
    ensures out_after { out.new ≡ if_room out.old to (report body.now cap).written }
{
    if to > out.len() {
        return blockreport_lines::sum(to, size);
    }
    report::report(body, &mut out[to..]);
    blockreport_lines::sum(to, size)
}

// Writes the line of the n-th field and a report of any length. It is measured first, because the line comes before it.
fn put_long(n: usize, o: Own, body: &[u8], out: &mut [u8], to: usize) -> usize
    ensures value { result ≡ place_after (body_addend Reported n o body.now) to }
    ensures out_after { out.new ≡ buffer_after (body_addend Reported n o body.now) out.old to }
{
    let m = report::measure(body);
    let at = blockreport_lines::put_line(n, o, m.number, m.ignored, out, to);
    put_report(body, m.written, out, at)
}

// Writes a text from a place on, where there is room for all of it.
fn put_fitting(text: &[u8], out: &mut [u8], to: usize) -> usize
    ensures value { result ≡ min (to + length text.now) cap }
    ensures out_after { out.new ≡ if_room out.old to text.now }
{
    if text.len() > base_readers::rest(out.len(), to) {
        return blockreport_lines::sum(to, text.len());
    }
    text_write::put_part(text, out, to)
}

// Writes what the detail adds for a body whose report answers this number: where that is 9 and it is asked for, the line of its identifier.
fn put_detail(detail: Detail, number: u8, body: &[u8], out: &mut [u8], to: usize) -> usize
    ensures { Clipped out.old to (detail_line detail number (identifier body.now)) out.new result }
{
    if number != Number::MALFORMED {
        return to;
    }
    match detail {
        Detail::Reported => to,
        Detail::Identified => blockreport_lines::put_identifier(body, out, to),
    }
}

// Writes the line of the n-th field and its report, which is mostly short: then it is made in a buffer of its own and copied. To one that is longer no detail
// adds anything.
fn put_body(detail: Detail, n: usize, o: Own, body: &[u8], out: &mut [u8], to: usize) -> usize
    ensures value { result ≡ place_after (body_addend detail n o body.now) to }
    ensures out_after { out.new ≡ buffer_after (body_addend detail n o body.now) out.old to }
{
    let mut text = [0u8; 1024];
    let m = report::report(body, &mut text);
    if m.number == Number::TOO_SHORT {
        return put_long(n, o, body, out, to);
    }
    let at = blockreport_lines::put_line(n, o, m.number, m.ignored, out, to);
    let end = put_fitting(&text[..m.written], out, at);
    put_detail(detail, m.number, body, out, end)
}

// Writes what the n-th field adds, which has this name and this body, and returns the place after it. `own` is our own list as it is compared.
pub fn put_field(
    detail: Detail,
    n: usize,
    own: &[u8],
    name: &[u8],
    body: &[u8],
    out: &mut [u8],
    to: usize,
) -> usize
    ensures value { result ≡ place_after (field_addend detail (own_of_spelled (lines_of own.now)) n name.now body.now) to }
    ensures out_after { out.new ≡ buffer_after (field_addend detail (own_of_spelled (lines_of own.now)) n name.now body.now) out.old to }
{
    if text_compare::same_text(name, b"Authentication-Results") {
        return put_body(detail, n, ownlist::whose_spelled(own, body), body, out, to);
    }
    to
}
