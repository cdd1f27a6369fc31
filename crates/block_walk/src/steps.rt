// A step from any place of a header block: the first field that starts there or later, or else the last answer of the block (lib.rt says which).
//
// The fields are those of one walk from the front, up to the first refusal. So a step from a place that was made up never takes the inside
// of a field for a field.
ghost use Rattle.std.specs.Prelude.{◌≡◌};
ghost use Rattle.block_walk_rules.specs.Steps.{step_from};

use base_answers::Number;
use block::{Next, Walk};
use block_walk_rules::Step;

// A step from any place of a block, or past it. The walk goes on from what the splitter answers, so there is no range to go over.
pub fn step_from(block: &[u8], from: usize) -> Step
    ensures { result ≡ step_from block.now from }
{
    if lexis_limits::too_long(block) {
        return Step::Last {
            number: Number::TOO_LONG,
            place: 0,
        };
    }
    let mut walk = Walk::fresh();
    loop {
        match block::next_field(block, walk) {
            Next::Field {
                start,
                name_end,
                body_start,
                end,
            } => {
                if from <= start {
                    return Step::Field {
                        start,
                        name_end,
                        body_start,
                        end,
                    };
                }
                walk = Walk {
                    at: end,
                    count: walk.count + 1,
                };
            }
            Next::End => {
                return Step::Last {
                    number: Number::DONE,
                    place: 0,
                };
            }
            Next::Refused { number, place } => {
                return Step::Last { number, place };
            }
        }
    }
}
