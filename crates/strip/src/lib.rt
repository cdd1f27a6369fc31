// Stripping in two steps: a header block without the Authentication-Results fields that speak in our own name or in none.
//
// `mark(block, list, out)` writes a byte for each field of the block, in order: 1 where the field goes, that is where it is named Authentication-Results and its identifier is
// unreadable or equals an entry of the list, else 0. `copy(block, list, marks, out)` is handed these bytes, and writes the block without the fields that go; every other byte
// is kept in order. They answer
//   0   done: how many bytes were written; of `copy` kept and removed bytes and removed fields; place 0
//   1   the block has more than 65,536 bytes: place 0
//   5   a bad list: the start of its first bad entry
//   2   a CR without LF, an LF without CR, or a last line without CRLF: that byte, or the block length
//   3   an empty line, a first line starting with space or tab, or a field that lacks name or colon: the start of the line
//   4   a 513th field: its start
//   13  of `copy`: `marks` are not exactly the bytes that `mark` writes for this block and list: place 0
//   6   `out` is too short: the bytes needed
// tried in this order. A refusal writes nothing and returns zero counts; bytes past those written stay unchanged.
#![tactic(auto)]

ghost use Rattle.std.specs.Prelude.{◌≡◌, ◌≤◌, min, length};
ghost use Rattle.strip_rules.specs.Answers as copied;
ghost use Rattle.strip_steps_rules.specs.Steps.{mark, copy};
ghost use Rattle.strip_steps_rules.specs.Answers as marked;

use base_answers::Number;
use strip_rules::Stripped;
use strip_steps_rules::Marked;

fn refuse_marks(number: u8, place: usize) -> Marked
    ensures { result ≡ record { number = number; place = place; written = 0 } }
{
    Marked {
        number,
        place,
        written: 0,
    }
}

// Which fields go, one byte for each. The marks are made in a buffer that has room for all, so that nothing is written before it is known that they fit.
pub fn mark(s: &[u8], list: &[u8], out: &mut [u8]) -> Marked
    ensures value { result ≡ marked.answer_of (mark s.now list.now (length out.old)) }
    ensures out_after { out.new ≡ marked.leaves (mark s.now list.now (length out.old)) out.old }
{
    let mut marks = strip_rooms::marks();
    let mut stops = [0usize; 1];
    let found = strip_lists::sift_listed(s, list, &mut marks, &mut stops);
    if found.number != Number::DONE {
        return refuse_marks(found.number, found.place);
    }
    if found.count > out.len() {
        return refuse_marks(Number::TOO_SHORT, found.count);
    }
    text_write::put_text(&marks[..found.count], out, 0);
    Marked {
        number: Number::DONE,
        place: 0,
        written: found.count,
    }
}

fn refuse(number: u8, place: usize) -> Stripped
    ensures { result ≡ record { number = number; place = place; kept = 0; removed = 0; fields = 0 } }
{
    Stripped {
        number,
        place,
        kept: 0,
        removed: 0,
        fields: 0,
    }
}

// The most marks for which small rooms do.
const FEW: usize = 64;

// The block without the fields that go, given their marks, with rooms for as many marks and places as marks were handed in: where there is another number of fields it is refused
// anyway. The marks are found again in one walk, and with them where each field ends; then what stands between the fields that go is copied at once.
#[inline(always)]
fn copy_by(
    s: &[u8],
    list: &[u8],
    marks: &[u8],
    own: &mut [u8],
    stops: &mut [usize],
    out: &mut [u8],
) -> Stripped
    requires { (min (length marks.now) 512 ≤ length own.old) × (min (length marks.now) 512 ≤ length stops.old) }
    ensures value { result ≡ copied.answer_of (copy s.now list.now marks.now (length out.old)) }
    ensures out_after { out.new ≡ copied.leaves (copy s.now list.now marks.now (length out.old)) out.old }
{
    let found = strip_lists::sift_listed(s, list, own, stops);
    if found.number != Number::DONE {
        return refuse(found.number, found.place);
    }
    if found.count != marks.len() {
        return refuse(Number::OTHER_MARKS, 0);
    }
    if !text_compare::exact::is_same(marks, &own[..found.count]) {
        return refuse(Number::OTHER_MARKS, 0);
    }
    let kept = base_readers::rest(s.len(), found.removed);
    if kept > out.len() {
        return refuse(Number::TOO_SHORT, kept);
    }
    strip_copy::put_unmarked(s, &stops[..found.count], marks, out, 0);
    Stripped {
        number: Number::DONE,
        place: 0,
        kept,
        removed: found.removed,
        fields: found.fields,
    }
}

// The block without the fields that go, given their marks. A room for each field that there may be costs more to clear than a small one.
pub fn copy(s: &[u8], list: &[u8], marks: &[u8], out: &mut [u8]) -> Stripped
    ensures value { result ≡ copied.answer_of (copy s.now list.now marks.now (length out.old)) }
    ensures out_after { out.new ≡ copied.leaves (copy s.now list.now marks.now (length out.old)) out.old }
{
    if marks.len() <= FEW {
        let mut own = [0u8; FEW];
        let mut stops = [0usize; FEW];
        return copy_by(s, list, marks, &mut own, &mut stops, out);
    }
    let mut own = strip_rooms::marks();
    let mut stops = strip_rooms::stops();
    copy_by(s, list, marks, &mut own, &mut stops, out)
}
