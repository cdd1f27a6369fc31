// Whose the identifier of a field body is, by a list that is checked first.
#![tactic(auto)]

ghost use Rattle.std.specs.Prelude.{◌≡◌};
ghost use Rattle.host_whose_struct.specs.Whose.{whose};

use host_whose_struct::WhoseFace;
use ownlist_ready::Ready;

// Whose the identifier of a field body is: ours, another's, or unreadable (`ownlist::whose`). 1 where the body is too long, then 5 where the list is bad.
// A list without two hyphens in a row is compared as it stands.
pub fn whose(list: &[u8], body: &[u8]) -> WhoseFace
    ensures { result ≡ whose list.now body.now }
{
    match ownlist_ready::readiness(body, list) {
        Ready::Refused { number, place } => host_whose_struct::refuse_whose(number, place),
        Ready::AsItStands => ownlist::whose_spelled(list, body).into(),
        Ready::ToSpell => ownlist::whose(list, body).into(),
    }
}
