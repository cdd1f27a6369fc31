// Runs `strip::mark` and then `strip::copy` on the cases of document 01's section on stripping, and writes one line for each.
//
// Three arguments make a case: the file of the block, the file of the own list, and how many bytes are lent for the output. The bytes lent
// are 170 before the call. A line has the three arguments and then what was answered:
//   number, place, kept, removed, fields   as `copy` returned them, given what `mark` wrote; where `mark` refuses, its number and place, and zero counts
//   check                                  the Adler-32 sum of the kept bytes that were written (1 where there are none)
//   changed                                how many of the lent bytes past those are no longer 170; on a refusal that is of all lent bytes
// A file that can't be opened has `no file` on its line. At most 65,540 bytes of a block and 32,768 of a list are read, and at most 65,540 are
// lent, which is enough on the far side of each limit.
#![tactic(auto)]

use sample_support::{arguments, buffers, lines};
use std::rt::{Env, Files};
use strip_rules::Stripped;

// The most bytes of a block that are read, and the most that are lent.
const MOST: usize = 65540;

// Writes the answer, and what holds of the lent bytes: the kept ones in front, and those past them.
fn put_answer(rt: &impl Print, r: Stripped, out: &[u8]) {
    let mut line = buffers::line();
    let a = lines::put_number(b": number ", r.number as u64, &mut line, 0);
    let b = lines::put_number(b" place ", r.place as u64, &mut line, a);
    let c = lines::put_number(b" kept ", r.kept as u64, &mut line, b);
    let d = lines::put_number(b" removed ", r.removed as u64, &mut line, c);
    let e = lines::put_number(b" fields ", r.fields as u64, &mut line, d);
    let n = lines::put_sums(out, r.kept, &mut line, e);
    arguments::put(rt, &line[..n]);
}

// Marks the fields that go, with room for as many as there may be, and copies the rest. The command has these lines for itself: this program tries the calls.
fn strip_in_steps(block: &[u8], list: &[u8], out: &mut [u8]) -> Stripped {
    let mut marks = strip_rooms::marks();
    let m = strip::mark(block, list, &mut marks);
    if m.number != 0 {
        return Stripped {
            number: m.number,
            place: m.place,
            kept: 0,
            removed: 0,
            fields: 0,
        };
    }
    let n = sample_support::front(&marks, m.written);
    strip::copy(block, list, &marks[..n], out)
}

// Strips into the lent bytes, and writes the answer and what holds of them.
fn strip_into(rt: &impl Print, block: &[u8], list: &[u8], out: &mut [u8]) {
    let r = strip_in_steps(block, list, out);
    put_answer(rt, r, out);
}

// Strips into so many lent bytes, each 170, and writes the answer.
fn run(rt: &impl Print, block: &[u8], list: &[u8], room: usize) {
    let mut out = buffers::untouched();
    let front = sample_support::front(&out, room);
    strip_into(rt, block, list, &mut out[..front]);
}

// One case: the number of each of its three arguments.
fn one_case(rt: &(impl Env + Files + Print), block: usize, list: usize, lent: usize) {
    let mut block_bytes = [0u8; MOST];
    let block_file = arguments::read_file(rt, block, &mut block_bytes);
    let mut list_bytes = [0u8; 32768];
    let list_file = arguments::read_file(rt, list, &mut list_bytes);
    let room = arguments::room_of(rt, lent, MOST);
    let (Some(n), Some(m)) = (block_file, list_file) else {
        arguments::put(rt, b": no file\n");
        return;
    };
    run(rt, &block_bytes[..n], &list_bytes[..m], room);
    arguments::put(rt, b"\n");
}

// Runs one case after the other.
fn main(rt: HostRuntime) {
    for k in 0..arguments::cases(command_files::argument_count(&rt), 3) {
        let first = 1 + k * 3;
        one_case(&rt, first, first + 1, first + 2);
    }
}
