// The struct that `orbendash_judge` returns, and how it is made from the answer of `arc::judge`.
//
// A struct is returned by value. On a refusal all but number and place are 0.
ghost use Rattle.std.specs.Prelude.{◌≡◌};
ghost use Rattle.host_structs.specs.JudgeFaces.{judged_face};

use arc_rules::Judged;

// What `orbendash_judge` returns. `has_oldest_pass` is 1 where there is one.
#[repr(C)]
#[derive(Drop)]
pub struct JudgeFace {
    pub number: u8,
    pub outcome: u8,
    pub reason: u8,
    pub status: u8,
    pub has_oldest_pass: u8,
    pub place: usize,
    pub field: usize,
    pub instances: usize,
    pub oldest_pass: usize,
}

// What `arc::judge` answered. There is an oldest-pass for the status pass alone.
impl From<Judged> for JudgeFace {
    ghost from_gives = { λ j face. face ≡ judged_face j };

    fn from(j: Judged) -> JudgeFace {
        JudgeFace {
            number: j.number,
            outcome: j.outcome,
            reason: j.reason,
            status: j.status,
            has_oldest_pass: u8::from(j.status == 1),
            place: j.place,
            field: j.field,
            instances: j.instances,
            oldest_pass: j.oldest,
        }
    }
}
