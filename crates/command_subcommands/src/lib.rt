// What each subcommand makes of what was read: one call, and its output at the front of a lent buffer. The answer is how the command ends once that has gone,
// and how many bytes it has. Nothing is read or written here.
//
//   strip_block(block, list, out)     what is kept of a block
//   report_block(block, list, out)    what each Authentication-Results field of a block says
//   explain_block(block, list, out)   in words what each Authentication-Results field of a block says
//   check_list(list, out)             how the entries of our own list are compared, and what is noticed of them
//   judge_block(block, digits, out)   what the ARC chain of a block says by the verdicts that these digits say
//   write_body(lines, out)            the body that has these lines as its report
#![tactic(auto)]

ghost use Rattle.std.specs.Prelude.{◌≡◌, map, length};
ghost use Rattle.strip_rules.specs.Strip as stripping;
ghost use Rattle.strip_rules.specs.Answers as stripped;
ghost use Rattle.judgement_rules.specs.Judgement.{verdict_of};
ghost use Rattle.command_output_rules.specs.Outputs.{verdicts_refusal, stripped_block, reported_block, explained_block, checked_list, judged_block, written_body};

use base_answers::Number;
use blockreport_rules::Detail;
use command_output_rules::Made;
use command_rules::Ending;
use ownlist_check::Checked;
use strip_rules::Stripped;

// Marks the fields that go, with room for as many as there may be, and copies the rest.
fn strip_in_steps(block: &[u8], list: &[u8], out: &mut [u8]) -> Stripped
    ensures value { result ≡ stripped.answer_of (stripping.strip block.now list.now (length out.old)) }
    ensures out_after { out.new ≡ stripped.leaves (stripping.strip block.now list.now (length out.old)) out.old }
{
    let mut marks = strip_rooms::marks();
    let m = strip::mark(block, list, &mut marks);
    if m.number != Number::DONE {
        return Stripped {
            number: m.number,
            place: m.place,
            kept: 0,
            removed: 0,
            fields: 0,
        };
    }
    strip::copy(block, list, &marks[..m.written], out)
}

// Strips a block by our own list: the output is what is kept.
pub fn strip_block(block: &[u8], list: &[u8], out: &mut [u8]) -> Made
    ensures value { result ≡ (stripped_block block.now list.now out.old).made }
    ensures out_after { out.new ≡ (stripped_block block.now list.now out.old).left }
{
    let a = strip_in_steps(block, list, out);
    let refusal = Ending::Refused {
        number: a.number,
        place: a.place,
    };
    command_ending::made_of(a.number, refusal, a.kept)
}

// Reports a block: the output is what each Authentication-Results field of it says, and by our own list whether it speaks in our name.
pub fn report_block(block: &[u8], list: &[u8], out: &mut [u8]) -> Made
    ensures value { result ≡ (reported_block block.now list.now out.old).made }
    ensures out_after { out.new ≡ (reported_block block.now list.now out.old).left }
{
    let a = blockreport::report_block(Detail::Reported, block, list, out);
    let refusal = Ending::Refused {
        number: a.number,
        place: a.place,
    };
    command_ending::made_of(a.number, refusal, a.written)
}

// Reports a block in words: a field that is not well-formed is told with its identifier.
pub fn explain_block(block: &[u8], list: &[u8], out: &mut [u8]) -> Made
    ensures value { result ≡ (explained_block block.now list.now out.old).made }
    ensures out_after { out.new ≡ (explained_block block.now list.now out.old).left }
{
    let mut lines = command_buffers::reports();
    let a = blockreport::report_block(Detail::Identified, block, list, &mut lines);
    if a.number != Number::DONE {
        let refusal = Ending::Refused {
            number: a.number,
            place: a.place,
        };
        return Made {
            ending: refusal,
            written: 0,
        };
    }
    let n = explain::put_explained(text_parts::part(&lines, 0, a.written), out, 0);
    command_ending::said_of(n, out.len())
}

// Checks our own list: the output is how its entries are compared, and what is noticed of them.
pub fn check_list(list: &[u8], out: &mut [u8]) -> Made
    ensures value { result ≡ (checked_list list.now out.old).made }
    ensures out_after { out.new ≡ (checked_list list.now out.old).left }
{
    match ownlist_check::check_list(list) {
        Checked::Bad { place } => {
            let refusal = Ending::Refused {
                number: Number::BAD_LIST,
                place,
            };
            return Made {
                ending: refusal,
                written: 0,
            };
        }
        Checked::Good => {}
    }
    let mut spelled = ownlist_spelled::room::spelled();
    let n = ownlist_spelled::spell_list(list, &mut spelled);
    let m = command_list::put_check(text_parts::part(&spelled, 0, n), list, out, 0);
    command_ending::said_of(m, out.len())
}

// What a judgement is refused with.
fn refusal_of(number: u8, place: usize, sets: usize) -> Ending
    ensures { result ≡ verdicts_refusal number place sets }
{
    if number == Number::BAD_VERDICTS {
        return Ending::VerdictsRefused { sets };
    }
    Ending::Refused { number, place }
}

// Judges the ARC chain of a block: the output says it in columns and in words. The digits are turned into verdicts where they stand.
pub fn judge_block(block: &[u8], digits: &mut [u8], out: &mut [u8]) -> Made
    ensures value { result ≡ (judged_block block.now digits.old out.old).made }
    ensures out_after { out.new ≡ (judged_block block.now digits.old out.old).left }
    ensures digits_after { digits.new ≡ map verdict_of digits.old }
{
    judgement::read_verdicts(digits);
    let j = arc::judge(block, digits);
    if j.number != Number::DONE {
        return Made {
            ending: refusal_of(j.number, j.place, command_sets::sets(block)),
            written: 0,
        };
    }
    let n = judgement::put_judgement(j, out, 0);
    command_ending::said_of(n, out.len())
}

// Composes a body: the output is the one that has these lines as its report.
pub fn write_body(lines: &[u8], out: &mut [u8]) -> Made
    ensures value { result ≡ (written_body lines.now out.old).made }
    ensures out_after { out.new ≡ (written_body lines.now out.old).left }
{
    let a = write::write(lines, out);
    let refusal = Ending::LinesRefused {
        number: a.number,
        place: a.place,
    };
    command_ending::made_of(a.number, refusal, a.written)
}
