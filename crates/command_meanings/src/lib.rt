// What the numbers of a refusal mean, in words: `put_meaning` of a block or our own list, `put_lines_meaning` of report lines.
//
// A writer is handed a buffer and a place in it, any place. It stores as much of the words as there is room for from there on, changes no other
// byte, and returns the place after all of them, at most the largest place, which no buffer reaches.
#![tactic(auto)]

ghost use Rattle.std.specs.Prelude.{◌≡◌};
ghost use Rattle.base_sequences.specs.Stored.{Clipped};
ghost use Rattle.text_write.specs.Phrases.{phrase};
ghost use Rattle.command_rules.specs.Messages.{meaning, lines_meaning};
ghost use Rattle.command_meanings.specs.Internal.{meaning_place, lines_meanings};

use base_answers::Number;

mod faults;

// The place of a number among the phrases of `put_meaning`: with one text the writer is checked much faster than with one in each arm (`text_write::phrases`).
#[tactic(auto, unfolding(crate::specs::Internal::meaning_place))]
fn meaning_place(number: u8) -> usize
    ensures { result ≡ meaning_place number }
{
    match number {
        Number::TOO_LONG => 0,
        Number::LINE_END => 1,
        Number::NO_FIELD => 2,
        Number::TOO_MANY_FIELDS => 3,
        Number::BAD_LIST => 4,
        _ => 5,
    }
}

// What a number means of a block or our own list; for 5 the list is looked at once more for what is wrong with its entry.
pub fn put_meaning(number: u8, place: usize, list: &[u8], out: &mut [u8], to: usize) -> usize
    ensures { Clipped out.old to (meaning number place list.now) out.new result }
{
    let said = text_write::phrases::put_phrase(
        b"the block has more than 65,536 bytes|a CR without LF, an LF without CR, or a last line without CRLF|an empty line, a first line that starts with space or tab, or a field without name or colon|a 513th field|a bad entry of the list: |the output is too long",
        meaning_place(number),
        out,
        to,
    );
    if number == Number::BAD_LIST {
        return faults::put_fault(list, place, out, said);
    }
    said
}

// The place of a number among the phrases of `put_lines_meaning`.
#[tactic(auto, unfolding(text_write::specs::Phrases::phrase, text_write::specs::Phrases::start, base_readers::specs::Readers::run, command_rules::specs::Messages::lines_meaning))]
fn lines_place(number: u8) -> usize
    ensures { phrase result lines_meanings ≡ lines_meaning number }
{
    match number {
        Number::NO_SUCH_REPORT => 0,
        Number::TOO_LONG => 1,
        _ => 2,
    }
}

// What a number means of report lines, and what its place counts.
pub fn put_lines_meaning(number: u8, out: &mut [u8], to: usize) -> usize
    ensures { Clipped out.old to (lines_meaning number) out.new result }
{
    text_write::phrases::put_phrase(
        b"no body has that report, at line |the body would have more than 65,536 bytes, at |the output is too long, at ",
        lines_place(number),
        out,
        to,
    )
}
