// Which fields of a block go.
//
// `sift(s, lines, marks, stops)` goes over a block once, by the lines of our own list, and keeps for each field a mark, 1 if it goes, else 0, and where it ends,
// as far as there is room for these. It answers the number and place of the walk, how many fields it came by, and bytes and number of those that go.
#![tactic(auto)]

ghost use Rattle.std.specs.Prelude.{◌≡◌, ◌&&◌};
ghost use Rattle.base_readers.specs.Texts.{bytes};
ghost use Rattle.lexis_rules.specs.Bytes.{alike};
ghost use Rattle.block_rules.specs.Fields.{fields};
ghost use Rattle.ownlist_lines.specs.Lines.{lines_in};
ghost use Rattle.ownlist_rules.specs.Spelled.{among_spelled};
ghost use Rattle.strip_rules.specs.Strip.{ours_or_unreadable};
ghost use Rattle.strip_fields.specs.Sifting.{is_disowned, Sifts};

use base_answers::Number;
use block::{Next, Walk};
use ownlist_lines::Lines;
use ownlist_rules::Own;

// What a walk over a block found: its number and place, how many fields there are, and of those that go the bytes and how many they are.
// No Result: its number is the one that the calls `mark` and `copy` answer to C, and where it refuses it tells the counts as well (`Sifts`).
#[derive(Drop)]
pub struct Sifted {
    pub number: u8,
    pub place: usize,
    pub count: usize,
    pub removed: usize,
    pub fields: usize,
}

fn disowns(o: Own) -> bool
    ensures { result ≡ is_disowned o }
{
    match o {
        Own::Ours | Own::Unreadable => true,
        Own::Others => false,
    }
}

// Whether the identifier of a body is unreadable or is spelled as a line of our own list.
fn is_disowned(lines: &Lines<'_>, body: &[u8]) -> bool
    ensures { result ≡ ours_or_unreadable (among_spelled (lines_in lines.now)) body.now }
{
    disowns(ownlist::whose_among(lines, body))
}

// Whether a field with this name and this body is removed.
fn is_removed(lines: &Lines<'_>, name: &[u8], body: &[u8]) -> bool
    ensures { result ≡ (alike name.now (bytes "Authentication-Results") && ours_or_unreadable (among_spelled (lines_in lines.now)) body.now) }
{
    if text_compare::same_text(name, b"Authentication-Results") {
        return is_disowned(lines, body);
    }
    false
}

// Goes over a block once, up to the end or the first refusal. The walk goes on from what the splitter answers, so there is no range to go over.
pub fn sift(s: &[u8], lines: &Lines<'_>, marks: &mut [u8], stops: &mut [usize]) -> Sifted
    ensures { Sifts (among_spelled (lines_in lines.now)) (fields s.now) marks.old stops.old marks.new stops.new result }
{
    let fresh = Walk::fresh();
    let mut at = fresh.at;
    let mut count = fresh.count;
    let mut removed: usize = 0;
    let mut fields: usize = 0;
    loop {
        match block::next_field(s, Walk { at, count }) {
            Next::Field {
                start,
                name_end,
                body_start,
                end,
            } => {
                if is_removed(lines, &s[start..name_end], &s[body_start..end - 2]) {
                    text_write::put_byte(1, marks, count);
                    text_parts::places::keep(stops, count, end);
                    removed += end - start;
                    fields += 1;
                    at = end;
                    count += 1;
                } else {
                    text_write::put_byte(0, marks, count);
                    text_parts::places::keep(stops, count, end);
                    at = end;
                    count += 1;
                }
            }
            Next::End => {
                return Sifted {
                    number: Number::DONE,
                    place: 0,
                    count,
                    removed,
                    fields,
                };
            }
            Next::Refused { number, place } => {
                return Sifted {
                    number,
                    place,
                    count,
                    removed,
                    fields,
                };
            }
        }
    }
}
