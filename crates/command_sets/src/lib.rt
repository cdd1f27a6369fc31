// How many sets the ARC chain of a block has, for a person whose verdicts are refused with 10.
//
// A refusal tells zero counts (01, Answer numbers), so the chain is judged by more and more verdicts, all 0, until they are as many as it has sets.
#![tactic(auto)]

ghost use Rattle.std.specs.Prelude.{◌≡◌};
ghost use Rattle.command_sets.specs.Sets.{sets_of};

use base_answers::Number;

// The most sets that a chain has.
const SETS: usize = 50;

// How many sets the chain of a block has where it is built; 0 where it is not, or where the block is refused.
pub fn sets(block: &[u8]) -> usize
    ensures { result ≡ sets_of block.now }
{
    let zeros = [0u8; SETS];
    for n in 1..=SETS {
        let j = arc::judge(block, &zeros[..n]);
        if j.number != Number::BAD_VERDICTS {
            return j.instances;
        }
    }
    0
}
