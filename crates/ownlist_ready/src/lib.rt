// Whether a call that is handed a block, or a field body, and our own list may go on, and how the list is then compared.
//
// `readiness(s, list)` answers
//   Refused     number 1, place 0, where `s` has more than 65,536 bytes; then number 5 where the list is bad, with the start of its first bad entry
//   AsItStands  the list has no two hyphens in a row, so no A-label: it is compared as it stands
//   ToSpell     any other list has to be spelled first, once for all fields (`ownlist_spelled`)
// It spells nothing itself, so that no buffer is cleared where none is needed.
#![tactic(auto)]

ghost use Rattle.std.specs.Prelude.{◌≡◌};
ghost use Rattle.ownlist_ready.specs.Answers.{ready_of};

use base_answers::Number;
use ownlist_check::Checked;

// Whether a call may go on with a list.
#[derive(Drop)]
pub enum Ready {
    Refused { number: u8, place: usize },
    AsItStands,
    ToSpell,
}

// Whether a call may go on with what it is handed.
pub fn readiness(s: &[u8], list: &[u8]) -> Ready
    ensures { result ≡ ready_of s.now list.now }
{
    if lexis_limits::too_long(s) {
        return Ready::Refused {
            number: Number::TOO_LONG,
            place: 0,
        };
    }
    match ownlist_check::check_list(list) {
        Checked::Bad { place } => {
            return Ready::Refused {
                number: Number::BAD_LIST,
                place,
            };
        }
        Checked::Good => {}
    }
    if punycode_hyphens::has_double_hyphen(list) {
        return Ready::ToSpell;
    }
    Ready::AsItStands
}
