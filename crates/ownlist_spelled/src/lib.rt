// Our own list as it is compared: each entry with U-labels for A-labels (02, ticket [2]), and LF.
//
// A list is taken up to its first bad entry; whether it has one is the caller's to ask first (`ownlist_check::check_list`). A good list without two hyphens in a row is its own
// spelling.
#![tactic(auto)]

ghost use Rattle.std.specs.Prelude.{[], ◌∷◌, ◌++◌, ◌≤◌, length};
ghost use Rattle.base_sequences.specs.Stored.{Put};
ghost use Rattle.punycode_rules.specs.Labels.{spelling};
ghost use Rattle.ownlist_rules.specs.OwnList.{longest, own_list};
ghost use Rattle.ownlist_rules.specs.Spelled.{spelled_list};

use ownlist_check::{Entries, Listed};
use punycode::Spelling;

pub mod room;

// Writes an entry as it is compared, and LF.
fn put_entry(e: &[u8], out: &mut [u8], to: usize) -> usize
    requires { (length e.now ≤ longest) × (to ≤ 65344) }
    ensures { Put out.old to (spelling e.now ++ (10 ∷ [])) out.new result }
{
    let mut spelled = [0u8; Spelling::LONGEST];
    let n = punycode::spell(e, &mut spelled);
    text_write::put_text(&spelled[..n], out, to);
    text_write::put_text(b"\n", out, to + n);
    n + 1
}

// Writes a list as it is compared: the spelling of each entry and LF, up to the first bad entry. The walk goes on from what it reads, so there is no range
// to go over.
pub fn spell_list(list: &[u8], out: &mut [u8]) -> usize
    ensures { Put out.old 0 (spelled_list (own_list list.now).items) out.new result }
{
    let fresh = Entries::fresh();
    let mut at = fresh.at;
    let mut count = fresh.count;
    let mut to: usize = 0;
    loop {
        match ownlist_check::next_entry(list, Entries { at, count }) {
            Listed::Entry { start, end } => {
                to += put_entry(&list[start..end], out, to);
                at = end + 1;
                count += 1;
            }
            Listed::End => {
                return to;
            }
            Listed::Bad { place: _ } => {
                return to;
            }
        }
    }
}
