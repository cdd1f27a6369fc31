// Punycode (RFC 3492), and texts with their A-labels as U-labels (02, ticket [2]).
//
// `spell` writes a text as it is compared: each label that starts with xn--, in either case, as its code points in UTF-8 where it decodes to
// such, and any other label as it stands. It returns the length, and stores as much as there is room for; a spelling of more than 1,020 bytes,
// which equals that of no list entry, is not written, and the answer is 1,021.
// `decode` does the same for what stands behind the prefix of one label. It answers the length of the code points in UTF-8, that it doesn't
// decode, or that it is longer than 1,020 bytes.
#![tactic(auto)]

ghost use Rattle.std.specs.Prelude.{◌≡◌, ◌+◌, length};
ghost use Rattle.punycode.specs.Answers.{decode_answer, decode_stored, spell_answer, spell_stored};

mod decoding;
mod labels;
mod numbers;
mod utf8;

// A text as it is compared.
#[derive(Drop)]
pub struct Spelling {}

impl Spelling {
    // The most bytes that the spelling of a list entry can have. A longer one is not written.
    pub const LONGEST: usize = 1020;
    // The answer for a longer one. A number, and no `Option`: `spell` keeps its answers, of which `spell_answer` and callers speak.
    pub const OVER: usize = Spelling::LONGEST + 1;
}

// The code points of a label behind its prefix: how many bytes they have in UTF-8; that it doesn't decode, or decodes to a surrogate or to
// a number above 10FFFF hex; or that it has more than 1,020 bytes. No `Result`: `decode` keeps its answers, which `decode_answer` defines.
#[derive(Drop)]
pub enum Decoded {
    Text { length: usize },
    Failed,
    Long,
}

// Decodes what stands behind the prefix of a label, and writes it in UTF-8 as far as there is room. Nothing is written where it fails.
pub fn decode(label: &[u8], out: &mut [u8]) -> Decoded
    ensures { (result ≡ decode_answer label.now) × (out.new ≡ decode_stored label.now out.old) }
{
    if label.len() > Spelling::LONGEST {
        return Decoded::Long;
    }
    let mut points = [0u32; Spelling::LONGEST];
    match decoding::read_points(label, &mut points) {
        Ok(count) => {
            let length = utf8::put_points(&points[..count], out, 0);
            Decoded::Text { length }
        }
        Err(_) => Decoded::Failed,
    }
}

// Writes a text as it is compared, as far as there is room, and returns its length; 1,021 and nothing is written where that is over 1,020.
pub fn spell(t: &[u8], out: &mut [u8]) -> usize
    ensures { (result ≡ spell_answer t.now) × (out.new ≡ spell_stored t.now out.old) }
{
    let mut text = [0u8; Spelling::LONGEST];
    let n = labels::put_spelling(t, &mut text);
    if n > Spelling::LONGEST {
        return Spelling::OVER;
    }
    text_write::put_text(&text[..n], out, 0)
}
