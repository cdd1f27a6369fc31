// A judgement in columns: the first line that the command writes of it.
//
// The functions that write are handed a buffer and a place in it, any place. They store as much of their text as there is room for from there on, change no
// other byte, and return the place after the whole text, at most the largest place, which no buffer reaches.
#![tactic(auto)]

ghost use Rattle.std.specs.Prelude.{◌∷◌};
ghost use Rattle.base_sequences.specs.Stored.{Clipped};
ghost use Rattle.text_decimals_rules.specs.Decimals.{decimal};
ghost use Rattle.judgement_rules.specs.Judgement.{reason_letter, status_word, oldest_word, columns_line};
ghost use Rattle.judgement_lines.specs.Internal.{outcome_column, outcome_columns, verdict_columns};

use arc_rules::Judged;

pub mod words;

// `chain`, a tab and the word of an outcome. The function of the reason and that of the status are one call of `put_phrase` too, of another definition each.
fn put_outcome(n: u8, out: &mut [u8], to: usize) -> usize
    ensures { Clipped out.old to (outcome_column n) out.new result }
{
    text_write::phrases::put_phrase(
        b"chain\tnone|chain\tfailed|chain\tbuilt",
        n as usize,
        out,
        to,
    )
}

// A tab and the letter of a reason.
fn put_letter(n: u8, out: &mut [u8], to: usize) -> usize
    ensures { Clipped out.old to (9 ∷ reason_letter n) out.new result }
{
    text_write::phrases::put_phrase(b"\t-|\ta|\tb|\tc|\td|\te|\t-", n as usize, out, to)
}

// A tab and the word of a status.
fn put_status(n: u8, out: &mut [u8], to: usize) -> usize
    ensures { Clipped out.old to (9 ∷ status_word n) out.new result }
{
    text_write::phrases::put_phrase(b"\tnone|\tpass|\tfail", n as usize, out, to)
}

// A tab and the decimal digits of a number.
fn put_number(n: usize, out: &mut [u8], to: usize) -> usize
    ensures { Clipped out.old to (9 ∷ decimal n) out.new result }
{
    let a = text_write::put_byte(b'\t', out, to);
    text_write::decimals::put_decimal(n as u64, out, a)
}

// A tab and the oldest-pass, where there is one.
fn put_oldest(status: u8, oldest: usize, out: &mut [u8], to: usize) -> usize
    ensures { Clipped out.old to (9 ∷ oldest_word status oldest) out.new result }
{
    if status == 1 {
        return put_number(oldest, out, to);
    }
    text_write::put_part(b"\t-", out, to)
}

// The first columns: outcome, reason and the field that it names.
fn put_outcomes(j: Judged, out: &mut [u8], to: usize) -> usize
    ensures { Clipped out.old to (outcome_columns j) out.new result }
{
    let a = put_outcome(j.outcome, out, to);
    let b = put_letter(j.reason, out, a);
    put_number(j.field, out, b)
}

// The others: instances, status and oldest-pass.
fn put_verdicts(j: Judged, out: &mut [u8], to: usize) -> usize
    ensures { Clipped out.old to (verdict_columns j) out.new result }
{
    let a = put_number(j.instances, out, to);
    let b = put_status(j.status, out, a);
    put_oldest(j.status, j.oldest, out, b)
}

// The line of columns.
pub fn put_columns(j: Judged, out: &mut [u8], to: usize) -> usize
    ensures { Clipped out.old to (columns_line j) out.new result }
{
    let a = put_outcomes(j, out, to);
    let b = put_verdicts(j, out, a);
    text_write::put_byte(b'\n', out, b)
}
