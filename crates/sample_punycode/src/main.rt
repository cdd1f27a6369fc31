// Runs `punycode::decode` on the sample strings of RFC 3492, section 7.1, and on labels at the edges, and `punycode::spell` and
// `punycode_hyphens::has_double_hyphen` on texts, and writes one line for each.
//
// Two arguments make a case: the file of the label behind its prefix (its name starts with d) or of the text, and how many bytes are lent. The
// bytes lent are 170 before the call. A line has the two arguments and then what was answered:
//   text, failed or long            what `decode` answered; behind `text` stands the length
//   double hyphen, length           what `has_double_hyphen` (1 for yes) and `spell` answered
//   check                           the Adler-32 sum of the bytes that were written (1 where there are none)
//   changed                         how many of the lent bytes past those are no longer 170
//   text                            the first 256 of the bytes that were written; a byte outside 33 to 126 and the percent sign are shown as %
//                                   and two hex digits in lower case
// A file that can't be opened has `no file` on its line. At most 16,384 bytes of a file are read, and at most 4,096 are lent.
//
// The lines that are expected (the file stdout) were not made by this program. They are the answers of a decoder in another language, written
// from RFC 3492 and ticket [2] of document 02; where it decodes, it was held to a third one, and on the sample strings to the RFC's code points.
#![tactic(auto)]

use punycode::{Decoded, Spelling};
use sample_support::{arguments, buffers, lines};
use std::rt::{Env, Files};

// The most bytes of a label or text that are read.
const MOST: usize = 16384;

// The most bytes that are lent.
const MOST_LENT: usize = 4096;

// Writes what holds of the lent bytes: the written ones in front, and those past them.
fn put_bytes(rt: &impl Print, out: &[u8], written: usize) {
    let mut line = buffers::line();
    let n = lines::put_bytes(out, written, &mut line, 0);
    arguments::put(rt, &line[..n]);
}

// Decodes into the lent bytes, and writes the answer and what holds of them.
fn decode_into(rt: &impl Print, label: &[u8], out: &mut [u8]) {
    let d = punycode::decode(label, out);
    match d {
        Decoded::Text { length } => {
            let mut line = buffers::line();
            let n = lines::put_number(b": text ", length as u64, &mut line, 0);
            arguments::put(rt, &line[..n]);
            put_bytes(rt, out, length);
        }
        Decoded::Failed => {
            arguments::put(rt, b": failed");
            put_bytes(rt, out, 0);
        }
        Decoded::Long => {
            arguments::put(rt, b": long");
            put_bytes(rt, out, 0);
        }
    }
}

// How many bytes of a spelling are written where there is room: none of one that is too long.
fn written(length: usize) -> usize {
    if length > Spelling::LONGEST {
        return 0;
    }
    length
}

// Spells into the lent bytes, and writes the answers and what holds of them.
fn spell_into(rt: &impl Print, text: &[u8], out: &mut [u8]) {
    let double = u64::from(punycode_hyphens::has_double_hyphen(text));
    let length = punycode::spell(text, out);
    let mut line = buffers::line();
    let a = lines::put_number(b": double hyphen ", double, &mut line, 0);
    let n = lines::put_number(b" length ", length as u64, &mut line, a);
    arguments::put(rt, &line[..n]);
    put_bytes(rt, out, written(length));
}

// Whether an argument names a label, not a text.
fn is_label(rt: &impl Env, argument: usize) -> bool {
    let mut path = buffers::line();
    let n = command_files::argument(rt, argument, &mut path);
    base_readers::is_at(&path[..n], 0, 0, b'd')
}

// One case: the number of each of its two arguments.
fn one_case(rt: &(impl Env + Files + Print), named: usize, lent: usize) {
    let mut bytes = [0u8; MOST];
    let file = arguments::read_file(rt, named, &mut bytes);
    let room = arguments::room_of(rt, lent, MOST_LENT);
    let Some(n) = file else {
        arguments::put(rt, b": no file\n");
        return;
    };
    let s = &bytes[..n];
    let mut out = [170u8; MOST_LENT];
    let front = sample_support::front(&out, room);
    if is_label(rt, named) {
        decode_into(rt, s, &mut out[..front]);
    } else {
        spell_into(rt, s, &mut out[..front]);
    }
    arguments::put(rt, b"\n");
}

// Runs one case after the other.
fn main(rt: HostRuntime) {
    for k in 0..arguments::cases(command_files::argument_count(&rt), 2) {
        let first = 1 + k * 2;
        one_case(&rt, first, first + 1);
    }
}
