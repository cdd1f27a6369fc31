// Our own field, written from report lines (02, ticket [1]).
//
// `write(lines, out)` takes lines as the report has them (`id`, then `none` or `m`, `r` and `p` lines), writes the body whose report they are,
// and answers
//   0   done: the bytes written, place 0
//   11  no well-formed body without ignored results has that report: the first line, from 1, up to which the lines can begin no such report,
//       or, where they only stop too early, one more than their count
//   1   the body to be written has more than 65,536 bytes: place 0
//   6   `out` is too short: the bytes needed
// tried in this order. A refusal writes nothing and returns a zero count; bytes past those written stay unchanged.
#![tactic(auto)]

ghost use Rattle.std.specs.Prelude.{◌≡◌, length};
ghost use Rattle.write_rules.specs.Compose.{entries, compose};
ghost use Rattle.write.specs.Internal.{next_of, is_final, LinesPut};
ghost use Rattle.write_rules.specs.Answers.{answer_of, leaves};

use base_answers::Number;
use lexis_limits::Size;
use text_first_pass::Copy;
use write_rules::Written;

// What stands before a line: nothing; the `id` line; the line `none`; an `m` line; an `r` or `p` line.
#[derive(Clone, Copy)]
enum State {
    Front,
    Named,
    Closed,
    Stated,
    Detailed,
}

// What stands before the next line, by the first byte of this one, where this one can stand there.
fn next_state(state: State, b: u8) -> Option<State>
    ensures { result ≡ next_of state b }
{
    match state {
        State::Front => match b {
            b'i' => Some(State::Named),
            _ => None,
        },
        State::Named => match b {
            b'n' => Some(State::Closed),
            b'm' => Some(State::Stated),
            _ => None,
        },
        State::Closed => None,
        State::Stated => match b {
            b'm' => Some(State::Stated),
            b'i' | b'n' => None,
            _ => Some(State::Detailed),
        },
        State::Detailed => match b {
            b'm' => Some(State::Stated),
            b'i' | b'n' | b'r' => None,
            _ => Some(State::Detailed),
        },
    }
}

// Whether the lines may end here.
fn is_final(state: State) -> bool
    ensures { result ≡ is_final state }
{
    match state {
        State::Front | State::Named => false,
        State::Closed | State::Stated | State::Detailed => true,
    }
}

// Every line, and what it adds to the body, as far as there is room: the place after what was written, or the number of the line that can't go
// on. Where a line can't go on, those before it are written. A line is as long as it is read to be, so there is no range to go over.
fn put_lines(s: &[u8], out: &mut [u8]) -> Result<usize, usize>
    ensures { LinesPut (entries s.now) out.old out.new result }
{
    let mut at: usize = 0;
    let mut n: usize = 1;
    let mut state = State::Front;
    let mut to: usize = 0;
    while at < s.len() {
        let Some(line) = write_lines::put_line(s, at, out, to) else {
            return Err(n);
        };
        let Some(next) = next_state(state, base_readers::byte(s, at, 0)) else {
            return Err(n);
        };
        state = next;
        at = line.end;
        to = line.next;
        n += 1;
    }
    if is_final(state) {
        return Ok(to);
    }
    Err(n)
}

// Writes the body that report lines say. The first pass runs on a buffer of its own, and so measures. What fits that too is copied from
// it; else a second pass runs on as much of `out` as was measured.
pub fn write(lines: &[u8], out: &mut [u8]) -> Written
    ensures value { result ≡ answer_of (compose lines.now (length out.old)) }
    ensures out_after { out.new ≡ leaves (compose lines.now (length out.old)) out.old }
{
    let mut scratch = [0u8; 1024];
    let length = match put_lines(lines, &mut scratch) {
        Ok(length) => length,
        Err(line) => {
            return Written {
                number: Number::NO_SUCH_REPORT,
                place: line,
                written: 0,
            };
        }
    };
    if length > Size::MOST {
        return Written {
            number: Number::TOO_LONG,
            place: 0,
            written: 0,
        };
    }
    match text_first_pass::copy_first(&scratch, length, out) {
        Copy::Short => Written {
            number: Number::TOO_SHORT,
            place: length,
            written: 0,
        },
        Copy::Again => {
            let _ = put_lines(lines, &mut out[..length]);
            Written {
                number: Number::DONE,
                place: 0,
                written: length,
            }
        }
        Copy::Done => Written {
            number: Number::DONE,
            place: 0,
            written: length,
        },
    }
}
