// What `strip --log` says of the fields that go, written into a lent buffer.
//
//   put_log(block, list, out)   a line for each field that goes (`log_of` in command_log_rules), or nothing where stripping refuses
//
// It stores as much of the text as there is room for at the front of `out`, changes no other byte, and returns the length of the whole text, at most the
// largest place, which no buffer reaches. Every byte of a field is written as in a report, so none can end a line.
#![tactic(auto)]

ghost use Rattle.base_sequences.specs.Stored.{Clipped};
ghost use Rattle.block_rules.specs.Fields.{fields};
ghost use Rattle.command_log_rules.specs.Log.{goes_line, line_by, lines_by, log_of};

use base_answers::Number;
use block::{Next, Walk};

// So many bytes of a field are shown at most.
const SHOWN: usize = 64;

// The line of a field that goes.
fn put_goes(n: usize, field: &[u8], out: &mut [u8], to: usize) -> usize
    ensures { Clipped out.old to (goes_line n field.now) out.new result }
{
    let front = text_parts::part(field, 0, SHOWN);
    let a = text_write::put_part(b"orbendash: goes: ", out, to);
    let b = text_write::decimals::put_decimal(n as u64, out, a);
    let c = text_write::put_part(b": ", out, b);
    let d = report_escape::put_escaped(front, out, c);
    text_write::put_part(b"\n", out, d)
}

// The same by its mark: nothing of a field that stays.
fn put_line(mark: u8, n: usize, field: &[u8], out: &mut [u8], to: usize) -> usize
    ensures { Clipped out.old to (line_by mark n field.now) out.new result }
{
    if mark == 1 {
        return put_goes(n, field, out, to);
    }
    to
}

// The lines of the fields of a block by their marks, up to the first refusal. The walk goes on from what the splitter answers, so there is no range to go
// over.
fn put_lines(s: &[u8], marks: &[u8], out: &mut [u8]) -> usize
    ensures { Clipped out.old 0 (lines_by marks.now 0 (fields s.now).items) out.new result }
{
    let fresh = Walk::fresh();
    let mut at = fresh.at;
    let mut count = fresh.count;
    let mut to: usize = 0;
    loop {
        match block::next_field(s, Walk { at, count }) {
            Next::Field {
                start,
                name_end: _,
                body_start: _,
                end,
            } => {
                let mark = base_readers::byte(marks, count, 0);
                count += 1;
                to = put_line(mark, count, &s[start..end], out, to);
                at = end;
            }
            Next::End => return to,
            Next::Refused {
                number: _,
                place: _,
            } => return to,
        }
    }
}

// What is logged of a block by our own list: the fields that go are marked first, with room for as many as there may be.
pub fn put_log(block: &[u8], list: &[u8], out: &mut [u8]) -> usize
    ensures { Clipped out.old 0 (log_of block.now list.now) out.new result }
{
    let mut marks = strip_rooms::marks();
    let m = strip::mark(block, list, &mut marks);
    if m.number != Number::DONE {
        return 0;
    }
    put_lines(block, &marks[..m.written], out)
}
