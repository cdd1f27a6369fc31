// A judgement, as the command writes it: a line of columns, and the same in words; and the verdicts, as the command is handed them.
//
// `put_judgement` is handed a buffer and a place in it, any place. It stores as much of its text as there is room for from there on, changes no
// other byte, and returns the place after the whole text, at most the largest place, which no buffer reaches.
#![tactic(auto)]

ghost use Rattle.std.specs.Prelude.{◌≡◌, map};
ghost use Rattle.base_sequences.specs.Stored.{Clipped};
ghost use Rattle.judgement_rules.specs.Judgement.{verdict_of, judgement};

use arc_rules::Judged;

// The verdict that a digit says, and a byte that is no verdict where it is no such digit. It is a byte, and no enum, since `arc::judge` is handed bytes
// and is itself the test of them.
#[tactic(auto, unfolding(judgement_rules::specs::Judgement::verdict_of, base_readers::specs::Texts::within))]
fn verdict(b: u8) -> u8
    ensures { result ≡ verdict_of b }
{
    match b {
        b'0'..=b'3' => b - b'0',
        _ => 255,
    }
}

// Digits turned into verdicts, in place. By index: of what is written through `iter_mut` a proof knows no element.
pub fn read_verdicts(word: &mut [u8])
    ensures { word.new ≡ map verdict_of word.old }
{
    for i in 0..word.len() {
        word[i] = verdict(word[i]);
    }
}

// Both lines of a judgement.
pub fn put_judgement(j: Judged, out: &mut [u8], to: usize) -> usize
    ensures { Clipped out.old to (judgement j) out.new result }
{
    let a = judgement_lines::put_columns(j, out, to);
    let b = judgement_lines::words::put_chain(j, out, a);
    text_write::put_byte(b'\n', out, b)
}
