// Whether the identifier of a body is on our own list.
//
// Identifiers are compared as they are spelled, with U-labels for A-labels (02, ticket [2]). Whoever asks for more than one body spells the
// list once (`ownlist_spelled::spell_list`), finds where its lines end once (`ownlist_lines::ends::line_ends`) and asks the outcome (`whose_among`); a good list without two hyphens
// in a row is its own spelling. `whose_spelled` finds the ends itself. A list is taken up to its first bad entry; whether it has one is the
// caller's to ask first (`ownlist_check::check_list`).
#![tactic(auto)]

ghost use Rattle.std.specs.Prelude.{◌≡◌, ◌<◌, ◌≤◌, length, drop, MatchOption};
ghost use Rattle.lexis_rules.specs.Words.{quoted_text};
ghost use Rattle.ownlist_rules.specs.OwnList.{own_list};
ghost use Rattle.identifier_rules.specs.Identifier.{identifier};
ghost use Rattle.ownlist_rules.specs.Listed.{own_if, own_of};
ghost use Rattle.base_readers.specs.Lines.{lines_of};
ghost use Rattle.ownlist_rules.specs.Spelled.{among_spelled, own_of_spelled};
ghost use Rattle.ownlist_lines.specs.Lines.{lines_in};

use identifier::Identifier;
use ownlist_check::Entries;
use ownlist_lines::Lines;
use ownlist_rules::Own;
use punycode::Spelling;

// The most bytes of a text with such a spelling (`spelling-least` in punycode_laws/proofs/Lengths.antt).
const UNSPELLED: usize = 11 * Spelling::LONGEST + 10;

// Whether a text that may have an A-label is spelled as a line. A spelling of more than 1,020 bytes is not.
fn is_decoded_line(lines: &Lines<'_>, text: &[u8]) -> bool
    ensures { result ≡ among_spelled (lines_in lines.now) text.now }
{
    let mut spelled = [0u8; Spelling::LONGEST];
    let n = punycode::spell(text, &mut spelled);
    if n > Spelling::LONGEST {
        return false;
    }
    ownlist_lines::is_line(lines, &spelled[..n])
}

// Whether a text is spelled as a line. One without two hyphens in a row is its own spelling.
fn is_spelled_line(lines: &Lines<'_>, text: &[u8]) -> bool
    ensures { result ≡ among_spelled (lines_in lines.now) text.now }
{
    if punycode_hyphens::has_double_hyphen(text) {
        return is_decoded_line(lines, text);
    }
    if text.len() > Spelling::LONGEST {
        return false;
    }
    ownlist_lines::is_line(lines, text)
}

// Whether the text of the quoted string that starts at a place is spelled as a line; not told where it has more than N bytes.
fn is_quoted_line_within<const N: usize>(lines: &Lines<'_>, body: &[u8], at: usize) -> Option<bool>
    requires { N ≤ 11230 }
    ensures { MatchOption result (N < length (quoted_text (drop at body.now))) (λ r. r ≡ among_spelled (lines_in lines.now) (quoted_text (drop at body.now))) }
{
    let mut text = [0u8; N];
    let n = text_quoted::put_quoted(body, at, &mut text, 0);
    if n > N {
        return None;
    }
    Some(is_spelled_line(lines, &text[..n]))
}

// Whether the text of the quoted string that starts at a place is spelled as a line. Most have room in the small buffer.
fn is_quoted_line(lines: &Lines<'_>, body: &[u8], at: usize) -> bool
    ensures { result ≡ among_spelled (lines_in lines.now) (quoted_text (drop at body.now)) }
{
    if let Some(listed) = is_quoted_line_within::<{ Entries::LONGEST }>(lines, body, at) {
        return listed;
    }
    if let Some(listed) = is_quoted_line_within::<UNSPELLED>(lines, body, at) {
        return listed;
    }
    false
}

fn own_if(listed: bool) -> Own
    ensures { result ≡ own_if listed }
{
    if listed { Own::Ours } else { Own::Others }
}

// Whose the identifier of a body is, by the lines of a list.
pub fn whose_among(lines: &Lines<'_>, body: &[u8]) -> Own
    ensures { result ≡ own_of_spelled (lines_in lines.now) (identifier body.now) }
{
    let Identifier::Readable { start, end, quoted } = identifier::identify(body) else {
        return Own::Unreadable;
    };
    if quoted {
        return own_if(is_quoted_line(lines, body, start));
    }
    own_if(is_spelled_line(lines, &body[start..end]))
}

// Whose the identifier of a body is, by a list as it is compared. Any bytes are taken for one: so many lines at a time as a list has entries. Where the next
// of them start is told by those before, so there is no range to go over.
pub fn whose_spelled(own: &[u8], body: &[u8]) -> Own
    ensures { result ≡ own_of_spelled (lines_of own.now) (identifier body.now) }
{
    let mut at: usize = 0;
    loop {
        let rest = &own[at..];
        let mut ends = [0usize; Entries::ENTRIES];
        let n = ownlist_lines::ends::line_ends(rest, &mut ends);
        if n <= Entries::ENTRIES {
            let lines = Lines {
                own: rest,
                ends: &ends[..n],
            };
            return whose_among(&lines, body);
        }
        let lines = Lines {
            own: rest,
            ends: &ends,
        };
        match whose_among(&lines, body) {
            Own::Ours => {
                return Own::Ours;
            }
            Own::Unreadable => {
                return Own::Unreadable;
            }
            Own::Others => {
                at += ends[Entries::ENTRIES - 1] + 1;
            }
        }
    }
}

// Whose the identifier of a body is, by a list.
pub fn whose(list: &[u8], body: &[u8]) -> Own
    ensures { result ≡ own_of (own_list list.now).items (identifier body.now) }
{
    let mut own = ownlist_spelled::room::spelled();
    let n = ownlist_spelled::spell_list(list, &mut own);
    whose_spelled(&own[..n], body)
}
