// The report of a header block: what each of its Authentication-Results fields says.
//
// `report_block(detail, block, list, out)` writes for each field named Authentication-Results, in the block's order, the line
//   field <tab> its number among all fields, from 1 <tab> own, other or unreadable <tab> answer number <tab> ignored results
// and then the report of its body (see `report::report`), which is empty where its number is 7 or 9. With `Detail::Identified` a field whose number is 9
// has the line of its identifier there, as in a report; with `Detail::Reported` it has none. A field is our own where its identifier equals an entry of
// the list. It answers
//   0  done: the bytes written, place 0
//   1  the block has more than 65,536 bytes: place 0
//   5  a bad list: the start of its first bad entry
//   2  a CR without LF, an LF without CR, or a last line without CRLF: that byte, or the block length
//   3  an empty line, a first line starting with space or tab, or a field that lacks name or colon: the start of the line
//   4  a 513th field: its start
//   6  `out` is too short: the bytes needed
// tried in this order. A refusal writes nothing and returns 0 bytes written; bytes past those written stay unchanged.
#![tactic(auto)]

ghost use Rattle.std.specs.Prelude.{◌≡◌, ◌≤◌, length};
ghost use Rattle.lexis_rules.specs.Limits.{byte_limit};
ghost use Rattle.ownlist_rules.specs.OwnList.{own_list};
ghost use Rattle.ownlist_rules.specs.Listed.{own_of};
ghost use Rattle.base_readers.specs.Lines.{lines_of};
ghost use Rattle.ownlist_rules.specs.Spelled.{own_of_spelled};
ghost use Rattle.blockreport_rules.specs.BlockReport.{report_fields, block_report};
ghost use Rattle.blockreport_rules.specs.Answers.{answer_of, leaves};
ghost use Rattle.blockreport.specs.Internal.{FieldsPut};

use base_answers::Number;
use block::{Next, Walk};
use blockreport_rules::{BlockReported, Detail};
use ownlist_ready::Ready;
use text_first_pass::Copy;

// Writes what the fields add over the front of `out`, up to the first refusal; where it does not fit, something may be lost of `out`. The walk goes on from
// what the splitter answers, so there is no range to go over.
fn put_fields(detail: Detail, s: &[u8], own: &[u8], out: &mut [u8]) -> BlockReported
    requires { length s.now ≤ byte_limit }
    ensures { FieldsPut detail s.now (own_of_spelled (lines_of own.now)) out.old out.new result }
{
    let fresh = Walk::fresh();
    let mut at = fresh.at;
    let mut count = fresh.count;
    let mut to: usize = 0;
    loop {
        match block::next_field(s, Walk { at, count }) {
            Next::Field {
                start,
                name_end,
                body_start,
                end,
            } => {
                count += 1;
                to = blockreport_fields::put_field(
                    detail,
                    count,
                    own,
                    &s[start..name_end],
                    &s[body_start..end - 2],
                    out,
                    to,
                );
                at = end;
            }
            Next::End => {
                return BlockReported {
                    number: Number::DONE,
                    place: 0,
                    written: to,
                };
            }
            Next::Refused { number, place } => {
                return BlockReported {
                    number,
                    place,
                    written: to,
                };
            }
        }
    }
}

fn refuse(number: u8, place: usize) -> BlockReported
    ensures { result ≡ record { number = number; place = place; written = 0 } }
{
    BlockReported {
        number,
        place,
        written: 0,
    }
}

// Reports by our own list as it is compared. The first pass goes to a buffer of its own, and so measures: nothing is written to `out` before it is
// known that all of it fits. What fits that too is copied from it; else a second pass writes it.
fn report_by(detail: Detail, s: &[u8], own: &[u8], out: &mut [u8]) -> BlockReported
    requires { length s.now ≤ byte_limit }
    ensures value { result ≡ answer_of (report_fields detail s.now (own_of_spelled (lines_of own.now)) (length out.old)) }
    ensures out_after { out.new ≡ leaves (report_fields detail s.now (own_of_spelled (lines_of own.now)) (length out.old)) out.old }
{
    let mut first = [0u8; 8192];
    let m = put_fields(detail, s, own, &mut first);
    if m.number != Number::DONE {
        return refuse(m.number, m.place);
    }
    match text_first_pass::copy_first(&first, m.written, out) {
        Copy::Short => refuse(Number::TOO_SHORT, m.written),
        Copy::Again => put_fields(detail, s, own, out),
        Copy::Done => m,
    }
}

// Reports by a list that has to be spelled first.
fn report_spelled(detail: Detail, s: &[u8], list: &[u8], out: &mut [u8]) -> BlockReported
    requires { length s.now ≤ byte_limit }
    ensures value { result ≡ answer_of (report_fields detail s.now (own_of (own_list list.now).items) (length out.old)) }
    ensures out_after { out.new ≡ leaves (report_fields detail s.now (own_of (own_list list.now).items) (length out.old)) out.old }
{
    let mut own = ownlist_spelled::room::spelled();
    let n = ownlist_spelled::spell_list(list, &mut own);
    report_by(detail, s, &own[..n], out)
}

// Reports a header block into a lent buffer. A list without two hyphens in a row is compared as it stands; any other is spelled once, for all fields.
pub fn report_block(detail: Detail, block: &[u8], list: &[u8], out: &mut [u8]) -> BlockReported
    ensures value { result ≡ answer_of (block_report detail block.now list.now (length out.old)) }
    ensures out_after { out.new ≡ leaves (block_report detail block.now list.now (length out.old)) out.old }
{
    match ownlist_ready::readiness(block, list) {
        Ready::Refused { number, place } => refuse(number, place),
        Ready::AsItStands => report_by(detail, block, list, out),
        Ready::ToSpell => report_spelled(detail, block, list, out),
    }
}
