// A judgement in words: the second line that the command writes of it.
//
// The functions that write are handed a buffer and a place in it, any place. They store as much of their text as there is room for from there on, change no
// other byte, and return the place after the whole text, at most the largest place, which no buffer reaches.
ghost use Rattle.std.specs.Prelude.{◌++◌};
ghost use Rattle.base_sequences.specs.Stored.{Clipped};
ghost use Rattle.judgement_rules.specs.Judgement.{reason_words, field_words, status_words, chain_words};
ghost use Rattle.judgement_lines.specs.WordsInternal.{numbered, sets_on, pass_words, built_words};

use arc_rules::Judged;

// Why a chain is failed; what is no reason is told as the last of them.
fn put_reason(n: u8, out: &mut [u8], to: usize) -> usize
    ensures { Clipped out.old to (reason_words n) out.new result }
{
    text_write::phrases::put_phrase(
        b"a seal's cv is not the one that RFC 8617 prescribes|an ARC field can't be read|a kind of ARC field is there twice at one instance|an instance lacks a kind of ARC field|the last seal has cv=fail|a seal's cv is not the one that RFC 8617 prescribes",
        n as usize,
        out,
        to,
    )
}

// One phrase for 0, and for another number the other phrase and its decimal digits.
fn put_numbered(all: &[u8], n: usize, out: &mut [u8], to: usize) -> usize
    ensures { Clipped out.old to (numbered all.now n) out.new result }
{
    let a = text_write::phrases::put_phrase(all, n, out, to);
    if n == 0 {
        return a;
    }
    text_write::decimals::put_decimal(n as u64, out, a)
}

// The field that a reason names.
fn put_field(n: usize, out: &mut [u8], to: usize) -> usize
    ensures { Clipped out.old to (field_words n) out.new result }
{
    put_numbered(b"|, field ", n, out, to)
}

// How many sets there are.
fn put_sets(n: usize, out: &mut [u8], to: usize) -> usize
    ensures { Clipped out.old to (sets_on n) out.new result }
{
    let a = text_write::decimals::put_decimal(n as u64, out, to);
    text_write::phrases::put_phrase(b" sets; | set; | sets; ", n, out, a)
}

// A chain that passes, with the oldest-pass.
fn put_pass(oldest: usize, out: &mut [u8], to: usize) -> usize
    ensures { Clipped out.old to (pass_words oldest) out.new result }
{
    put_numbered(
        b"pass: every seal and the last signature are good, and so is every other signature|pass: every seal and the last signature are good; oldest-pass is ",
        oldest,
        out,
        to,
    )
}

// What the verdicts make of a chain that is built.
fn put_verdict(status: u8, oldest: usize, out: &mut [u8], to: usize) -> usize
    ensures { Clipped out.old to (status_words status oldest) out.new result }
{
    if status == 1 {
        return put_pass(oldest, out, to);
    }
    text_write::put_part(b"fail: a seal or the last signature is not good", out, to)
}

// A chain that is failed.
fn put_failed(reason: u8, field: usize, out: &mut [u8], to: usize) -> usize
    ensures { Clipped out.old to (reason_words reason ++ field_words field) out.new result }
{
    let a = put_reason(reason, out, to);
    put_field(field, out, a)
}

// A chain that is built.
fn put_built(j: Judged, out: &mut [u8], to: usize) -> usize
    ensures { Clipped out.old to (built_words j) out.new result }
{
    let a = put_sets(j.instances, out, to);
    put_verdict(j.status, j.oldest, out, a)
}

// A judgement in words.
pub fn put_chain(j: Judged, out: &mut [u8], to: usize) -> usize
    ensures { Clipped out.old to (chain_words j) out.new result }
{
    let a = text_write::phrases::put_phrase(
        b"There is no ARC field.|The chain is failed: |The chain is built, with ",
        j.outcome as usize,
        out,
        to,
    );
    if j.outcome == 0 {
        return a;
    }
    if j.outcome == 1 {
        return put_failed(j.reason, j.field, out, a);
    }
    put_built(j, out, a)
}
