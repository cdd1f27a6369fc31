// The one line on standard error with which the command ends.
//
// `put_ending` writes the line
//   orbendash: NUMBER: meaning, at PLACE
// for a refusal with a number of 01 or 02, the same without a place for the command's own numbers, and
//   orbendash: 0: done
// where all of the output has been written. It is handed a buffer and a place in it, any place, stores as much of the line as there is room
// for from there on, changes no other byte, and returns the place after the whole line, at most the largest place, which no buffer reaches.
#![tactic(auto)]

ghost use Rattle.base_sequences.specs.Stored.{Clipped};
ghost use Rattle.text_write.specs.Phrases.{phrase};
ghost use Rattle.command_rules.specs.Messages.{opening, closing, refusal_line, lines_refusal, verdicts_line, ending_line};
ghost use Rattle.command_message.specs.Internal.{tolds};

use command_rules::Ending;

// The front of the line of a refusal.
fn put_opening(number: u8, out: &mut [u8], to: usize) -> usize
    ensures { Clipped out.old to (opening number) out.new result }
{
    let name = text_write::put_part(b"orbendash: ", out, to);
    let digits = text_write::decimals::put_decimal(number as u64, out, name);
    text_write::put_part(b": ", out, digits)
}

// Its end: the place, and LF.
fn put_closing(place: usize, out: &mut [u8], to: usize) -> usize
    ensures { Clipped out.old to (closing place) out.new result }
{
    let digits = text_write::decimals::put_decimal(place as u64, out, to);
    text_write::put_byte(b'\n', out, digits)
}

// The line of a refusal of a block or our own list.
fn put_refusal(number: u8, place: usize, list: &[u8], out: &mut [u8], to: usize) -> usize
    ensures { Clipped out.old to (refusal_line number place list.now) out.new result }
{
    let opened = put_opening(number, out, to);
    let said = command_meanings::put_meaning(number, place, list, out, opened);
    let at = text_write::put_part(b", at ", out, said);
    put_closing(place, out, at)
}

// The line of a refusal of report lines.
fn put_lines_refusal(number: u8, place: usize, out: &mut [u8], to: usize) -> usize
    ensures { Clipped out.old to (lines_refusal number place) out.new result }
{
    let opened = put_opening(number, out, to);
    let said = command_meanings::put_lines_meaning(number, out, opened);
    put_closing(place, out, said)
}

// The line of bad verdicts.
fn put_verdicts(sets: usize, out: &mut [u8], to: usize) -> usize
    ensures { Clipped out.old to (verdicts_line sets) out.new result }
{
    let said = text_write::put_part(
        b"orbendash: 10: bad verdicts: a chain that is built needs one digit from 0 to 3 for each set, of which this one has ",
        out,
        to,
    );
    put_closing(sets, out, said)
}

// The line of an ending that is told by one phrase.
fn put_told(n: usize, out: &mut [u8], to: usize) -> usize
    ensures { Clipped out.old to (phrase n tolds) out.new result }
{
    text_write::phrases::put_phrase(
        b"orbendash: 0: done\n|orbendash: 64: usage: orbendash strip LIST < BLOCK, the same with report or explain, orbendash check LIST, orbendash judge VERDICTS < BLOCK, orbendash write < LINES or orbendash --help\n|orbendash: 66: the list can't be opened\n|orbendash: 66: the list can't be read\n|orbendash: 74: standard input can't be read\n|orbendash: 74: standard input can't be read whole: it has more than 262,144 bytes\n|orbendash: 70: the output is too long\n|orbendash: 74: standard output can't be written\n",
        n,
        out,
        to,
    )
}

// The line of an ending; `list` is our own list, which a refusal by 5 speaks of.
pub fn put_ending(ending: Ending, list: &[u8], out: &mut [u8], to: usize) -> usize
    ensures { Clipped out.old to (ending_line ending list.now) out.new result }
{
    match ending {
        Ending::Refused { number, place } => put_refusal(number, place, list, out, to),
        Ending::LinesRefused { number, place } => put_lines_refusal(number, place, out, to),
        Ending::VerdictsRefused { sets } => put_verdicts(sets, out, to),
        Ending::Done => put_told(0, out, to),
        Ending::Usage => put_told(1, out, to),
        Ending::ListClosed => put_told(2, out, to),
        Ending::ListUnread => put_told(3, out, to),
        Ending::InputUnread => put_told(4, out, to),
        Ending::InputTooLong => put_told(5, out, to),
        Ending::OutputTooLong => put_told(6, out, to),
        Ending::Unwritten => put_told(7, out, to),
    }
}
