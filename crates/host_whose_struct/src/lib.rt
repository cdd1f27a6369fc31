// The struct that `orbendash_whose` returns, and how it is made.
//
// A struct is returned by value. On a refusal all but number and place are 0.
#![tactic(auto)]

ghost use Rattle.std.specs.Prelude.{◌≡◌};
ghost use Rattle.host_whose_struct.specs.Whose.{owner_code, refuse_whose, tell_whose};

use base_answers::Number;
use ownlist_rules::Own;

// What `orbendash_whose` returns. `whose` is 0 where the identifier is ours, 1 where it is another's, 2 where it can't be read.
#[repr(C)]
#[derive(Drop)]
pub struct WhoseFace {
    pub number: u8,
    pub whose: u8,
    pub place: usize,
}

// The code of whose an identifier is.
fn owner_code(o: Own) -> u8
    ensures { result ≡ owner_code o }
{
    match o {
        Own::Ours => 0,
        Own::Others => 1,
        Own::Unreadable => 2,
    }
}

// What `ownlist::whose` answered.
impl From<Own> for WhoseFace {
    ghost from_gives = { λ o face. face ≡ tell_whose o };

    fn from(o: Own) -> WhoseFace {
        WhoseFace {
            number: Number::DONE,
            whose: owner_code(o),
            place: 0,
        }
    }
}

// A refusal to say whose an identifier is.
pub fn refuse_whose(number: u8, place: usize) -> WhoseFace
    ensures { result ≡ refuse_whose number place }
{
    WhoseFace {
        number,
        whose: 0,
        place,
    }
}
