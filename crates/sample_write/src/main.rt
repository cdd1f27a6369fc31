// Runs `write::write` on the cases of ticket [1] of document 02, and writes one line for each.
//
// Two arguments make a case: the file of the report lines, and how many bytes are lent for the body. The bytes lent are 170 before the call.
// A line has the two arguments and then what was answered:
//   number, place, written   as `write` returned them
//   check                    the Adler-32 sum of the bytes that were written (1 where there are none)
//   changed                  how many of the lent bytes past those are no longer 170; on a refusal that is of all lent bytes (no case whose
//                            answer is a refusal would write that byte)
//   text                     the first 256 of the bytes that were written; a byte outside 33 to 126 and the percent sign are shown as % and
//                            two hex digits in lower case
// and where the number is 0, what `report::report` says of the body that was written: number, place, ignored, and whether its lines are the
// same bytes as those of the file.
// A file that can't be opened has `no file` on its line. At most 210,000 bytes of lines are read and at most 66,000 lent.
//
// The lines that are expected (the file stdout) were not made by this program: they are the answers of a model of the ticket's rules in
// another language.
#![tactic(auto)]

use report_rules::Reported;
use sample_support::{arguments, buffers, lines};
use std::rt::{Env, Files};
use write_rules::Written;

// The most bytes that are lent.
const MOST_LENT: usize = 66000;

// Writes the answer, and what holds of the lent bytes: the written ones in front, and those past them.
fn put_answer(rt: &impl Print, w: Written, out: &[u8]) {
    let mut line = buffers::line();
    let a = lines::put_number(b": number ", w.number as u64, &mut line, 0);
    let b = lines::put_number(b" place ", w.place as u64, &mut line, a);
    let c = lines::put_number(b" written ", w.written as u64, &mut line, b);
    let n = lines::put_bytes(out, w.written, &mut line, c);
    arguments::put(rt, &line[..n]);
}

// Writes what is said of the body that was written.
fn put_report(rt: &impl Print, r: Reported) {
    let mut line = buffers::line();
    let a = lines::put_number(b" read back number ", r.number as u64, &mut line, 0);
    let b = lines::put_number(b" place ", r.place as u64, &mut line, a);
    let n = lines::put_number(b" ignored ", r.ignored as u64, &mut line, b);
    arguments::put(rt, &line[..n]);
}

// Writes whether a report of so many bytes is the given lines.
fn put_same(rt: &impl Print, given: &[u8], reported: &[u8], count: usize) {
    let n = sample_support::front(reported, count);
    if text_compare::exact::is_same(given, &reported[..n]) {
        arguments::put(rt, b" same");
        return;
    }
    arguments::put(rt, b" differs");
}

// Reports the body that was written, where the number is 0, and compares that with the given lines.
fn read_back(rt: &impl Print, given: &[u8], out: &[u8], w: Written) {
    if w.number != 0 {
        return;
    }
    let n = sample_support::front(out, w.written);
    let mut reported = buffers::zeros();
    let r = report::report(&out[..n], &mut reported);
    put_report(rt, r);
    put_same(rt, given, &reported, r.written);
}

// Writes the body of the given lines into the lent bytes, and says the answer and what holds of them.
fn write_into(rt: &impl Print, given: &[u8], out: &mut [u8]) {
    let w = write::write(given, out);
    put_answer(rt, w, out);
    read_back(rt, given, out, w);
}

// One case: the number of each of its two arguments.
fn one_case(rt: &(impl Env + Files + Print), given: usize, lent: usize) {
    let mut bytes = buffers::zeros();
    let file = arguments::read_file(rt, given, &mut bytes);
    let room = arguments::room_of(rt, lent, MOST_LENT);
    let Some(n) = file else {
        arguments::put(rt, b": no file\n");
        return;
    };
    let lines = &bytes[..n];
    let mut out = buffers::untouched();
    let front = sample_support::front(&out, room);
    write_into(rt, lines, &mut out[..front]);
    arguments::put(rt, b"\n");
}

// Runs one case after the other.
fn main(rt: HostRuntime) {
    for k in 0..arguments::cases(command_files::argument_count(&rt), 2) {
        let first = 1 + k * 2;
        one_case(&rt, first, first + 1);
    }
}
