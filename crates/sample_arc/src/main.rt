// Runs `arc::judge` on the cases of document 01's section on the chain, and writes one line for each.
//
// Two arguments make a case: the file of the block, and the verdicts, one decimal digit for each instance from 1, or "-" for none. A line has
// the two arguments and then number, place, outcome, reason, field, instances, status and oldest, as `judge` returned them. A file that can't be
// opened has `no file` on its line. At most 65,540 bytes of a block are read, which is enough on the far side of its limit.
#![tactic(auto)]

use arc_rules::Judged;
use sample_support::{arguments, buffers, lines};
use std::rt::{Env, Files};

// The most bytes of a block that are read.
const MOST: usize = 65540;

// Writes the front half of the answer.
fn put_outcome(rt: &impl Print, r: Judged) {
    let mut line = buffers::line();
    let a = lines::put_number(b": number ", r.number as u64, &mut line, 0);
    let b = lines::put_number(b" place ", r.place as u64, &mut line, a);
    let c = lines::put_number(b" outcome ", r.outcome as u64, &mut line, b);
    let d = lines::put_number(b" reason ", r.reason as u64, &mut line, c);
    let n = lines::put_number(b" field ", r.field as u64, &mut line, d);
    arguments::put(rt, &line[..n]);
}

// Writes the other half.
fn put_status(rt: &impl Print, r: Judged) {
    let mut line = buffers::line();
    let a = lines::put_number(b" instances ", r.instances as u64, &mut line, 0);
    let b = lines::put_number(b" status ", r.status as u64, &mut line, a);
    let n = lines::put_number(b" oldest ", r.oldest as u64, &mut line, b);
    arguments::put(rt, &line[..n]);
}

// Judges and writes the answer.
fn put_judged(rt: &impl Print, block: &[u8], verdicts: &[u8]) {
    let r = arc::judge(block, verdicts);
    put_outcome(rt, r);
    put_status(rt, r);
}

// Judges by the text of the verdicts, and writes the answer.
fn run(rt: &impl Print, block: &[u8], text: &[u8]) {
    let mut verdicts = buffers::line();
    let m = sample_support::digits(text, &mut verdicts);
    put_judged(rt, block, &verdicts[..m]);
}

// One case: the number of each of its two arguments.
fn one_case(rt: &(impl Env + Files + Print), block: usize, verdicts: usize) {
    let mut bytes = [0u8; MOST];
    let file = arguments::read_file(rt, block, &mut bytes);
    let mut text = buffers::line();
    let m = command_files::argument(rt, verdicts, &mut text);
    arguments::put(rt, &text[..m]);
    let Some(n) = file else {
        arguments::put(rt, b": no file\n");
        return;
    };
    run(rt, &bytes[..n], &text[..m]);
    arguments::put(rt, b"\n");
}

// Runs one case after the other.
fn main(rt: HostRuntime) {
    for k in 0..arguments::cases(command_files::argument_count(&rt), 2) {
        let first = 1 + k * 2;
        one_case(&rt, first, first + 1);
    }
}
