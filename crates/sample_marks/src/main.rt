// Runs both steps of stripping, `strip::mark` and `strip::copy`, on cases of document 02's ticket [7], and writes one line for each. (`sample_strip` runs the pair on
// those of document 01.)
//
// Five arguments make a case: the file of the block, the file of the own list, the file of the marks that are handed to `copy`, and how many bytes are lent to `mark` and
// to `copy`. The bytes lent are 170 before the call. A line has the five arguments and then what was answered:
//   mark number, place, written                   as `mark` returned them
//   check, changed                                the Adler-32 sum of the marks that were written (1 where there are none), and how many of the lent bytes past those are no
//                                                 longer 170; on a refusal that is of all lent bytes
//   copy number, place, kept, removed, fields     as `copy` returned them, given the marks of the file, whatever `mark` answered
//   check, changed                                as above, of the kept bytes
// A file that can't be opened has `no file` on its line. At most 65,540 bytes of a block, 32,768 of a list and 1,024 of marks are read, and at most 65,540 are lent, which is
// enough on the far side of each limit.
#![tactic(auto)]

use sample_support::{arguments, buffers, lines};
use std::rt::{Env, Files};
use strip_rules::Stripped;
use strip_steps_rules::Marked;

// The most bytes of a block that are read, and the most that are lent.
const MOST: usize = 65540;

// Writes the answer of the first step, and what holds of the lent bytes: the marks in front, and those past them.
fn put_marked(rt: &impl Print, r: Marked, out: &[u8]) {
    let mut line = buffers::line();
    let a = lines::put_number(b": mark number ", r.number as u64, &mut line, 0);
    let b = lines::put_number(b" place ", r.place as u64, &mut line, a);
    let c = lines::put_number(b" written ", r.written as u64, &mut line, b);
    let n = lines::put_sums(out, r.written, &mut line, c);
    arguments::put(rt, &line[..n]);
}

// Writes the answer of the second step, and what holds of the lent bytes: the kept ones in front, and those past them.
fn put_copied(rt: &impl Print, r: Stripped, out: &[u8]) {
    let mut line = buffers::line();
    let a = lines::put_number(b"; copy number ", r.number as u64, &mut line, 0);
    let b = lines::put_number(b" place ", r.place as u64, &mut line, a);
    let c = lines::put_number(b" kept ", r.kept as u64, &mut line, b);
    let d = lines::put_number(b" removed ", r.removed as u64, &mut line, c);
    let e = lines::put_number(b" fields ", r.fields as u64, &mut line, d);
    let n = lines::put_sums(out, r.kept, &mut line, e);
    arguments::put(rt, &line[..n]);
}

// Marks into the lent bytes, and writes the answer and what holds of them.
fn mark_into(rt: &impl Print, block: &[u8], list: &[u8], out: &mut [u8]) {
    let r = strip::mark(block, list, out);
    put_marked(rt, r, out);
}

// Marks into so many lent bytes, each 170, and writes the answer. The buffer is gone when the other one is made.
fn run_mark(rt: &impl Print, block: &[u8], list: &[u8], room: usize) {
    let mut out = buffers::untouched();
    let front = sample_support::front(&out, room);
    mark_into(rt, block, list, &mut out[..front]);
}

// Copies into the lent bytes, and writes the answer and what holds of them.
fn copy_into(rt: &impl Print, block: &[u8], list: &[u8], marks: &[u8], out: &mut [u8]) {
    let r = strip::copy(block, list, marks, out);
    put_copied(rt, r, out);
}

// Copies into so many lent bytes, each 170, and writes the answer.
fn run_copy(rt: &impl Print, block: &[u8], list: &[u8], marks: &[u8], room: usize) {
    let mut out = buffers::untouched();
    let front = sample_support::front(&out, room);
    copy_into(rt, block, list, marks, &mut out[..front]);
}

// One case: the number of each of its five arguments.
fn one_case(
    rt: &(impl Env + Files + Print),
    block: usize,
    list: usize,
    marks: usize,
    mark_lent: usize,
    copy_lent: usize,
) {
    let mut block_bytes = [0u8; MOST];
    let block_file = arguments::read_file(rt, block, &mut block_bytes);
    let mut list_bytes = [0u8; 32768];
    let list_file = arguments::read_file(rt, list, &mut list_bytes);
    let mut marks_bytes = [0u8; 1024];
    let marks_file = arguments::read_file(rt, marks, &mut marks_bytes);
    let mark_room = arguments::room_of(rt, mark_lent, MOST);
    arguments::put(rt, b" ");
    let copy_room = arguments::room_of(rt, copy_lent, MOST);
    let (Some(n), Some(m), Some(k)) = (block_file, list_file, marks_file) else {
        arguments::put(rt, b": no file\n");
        return;
    };
    let given = &block_bytes[..n];
    let own = &list_bytes[..m];
    run_mark(rt, given, own, mark_room);
    run_copy(rt, given, own, &marks_bytes[..k], copy_room);
    arguments::put(rt, b"\n");
}

// Runs one case after the other.
fn main(rt: HostRuntime) {
    for k in 0..arguments::cases(command_files::argument_count(&rt), 5) {
        let first = 1 + k * 5;
        one_case(&rt, first, first + 1, first + 2, first + 3, first + 4);
    }
}
