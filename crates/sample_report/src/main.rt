// Runs `report::report` on the cases of document 01's rules for one field body, and writes one line for each.
//
// Two arguments make a case: the file of the body, and how many bytes are lent for the report. The bytes lent are 170 before the call, a
// byte that no report has. A line has the two arguments and then what was answered:
//   number, place, written, ignored   as `report` returned them
//   check                             the Adler-32 sum of the bytes that were written (1 where there are none)
//   changed                           how many of the lent bytes past those are no longer 170; on a refusal that is of all lent bytes
//   text                              the first 256 of the bytes that were written, which is all of them but in the cases of the longest
//                                     reports; a byte outside 33 to 126 and the percent sign are shown as % and two hex digits in lower case
// A file that can't be opened has `no file` on its line. At most 65,540 bytes of a body are read, and at most 200,000 are lent, which is
// enough on the far side of each limit.
//
// The lines that are expected (the file stdout) were not made by this program. They are the answers of a model of the rules, in another
// language, which its writers made from document 01 after they had read the definitions that are proved here; each was also held to an
// answer worked out by hand.
#![tactic(auto)]

use report_rules::Reported;
use sample_support::{arguments, buffers, lines};
use std::rt::{Env, Files};

// The most bytes of a body that are read.
const MOST: usize = 65540;

// The most bytes that are lent.
const MOST_LENT: usize = 200000;

// Writes the answer, and what holds of the lent bytes: the written ones in front, and those past them.
fn put_answer(rt: &impl Print, r: Reported, out: &[u8]) {
    let mut line = buffers::line();
    let a = lines::put_number(b": number ", r.number as u64, &mut line, 0);
    let b = lines::put_number(b" place ", r.place as u64, &mut line, a);
    let c = lines::put_number(b" written ", r.written as u64, &mut line, b);
    let d = lines::put_number(b" ignored ", r.ignored as u64, &mut line, c);
    let n = lines::put_bytes(out, r.written, &mut line, d);
    arguments::put(rt, &line[..n]);
}

// Reports into the lent bytes, and writes the answer and what holds of them.
fn report_into(rt: &impl Print, body: &[u8], out: &mut [u8]) {
    let r = report::report(body, out);
    put_answer(rt, r, out);
}

// One case: the number of each of its two arguments.
fn one_case(rt: &(impl Env + Files + Print), body: usize, lent: usize) {
    let mut bytes = [0u8; MOST];
    let file = arguments::read_file(rt, body, &mut bytes);
    let room = arguments::room_of(rt, lent, MOST_LENT);
    let Some(n) = file else {
        arguments::put(rt, b": no file\n");
        return;
    };
    let body = &bytes[..n];
    let mut out = buffers::untouched();
    let front = sample_support::front(&out, room);
    report_into(rt, body, &mut out[..front]);
    arguments::put(rt, b"\n");
}

// Runs one case after the other.
fn main(rt: HostRuntime) {
    for k in 0..arguments::cases(command_files::argument_count(&rt), 2) {
        let first = 1 + k * 2;
        one_case(&rt, first, first + 1);
    }
}
