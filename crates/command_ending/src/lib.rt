// How a subcommand ends, by what its call answered, and how the command does, once the output has gone or not.
//
//   made_of(number, refusal, size)   what a call makes that answered this number and wrote so many bytes
//   said_of(size, room)              what words make that have so many bytes, in a buffer with this room
//   ending_after(made, went)         how the command ends
#![tactic(auto)]

ghost use Rattle.std.specs.Prelude.{◌≡◌};
ghost use Rattle.command_output_rules.specs.Outputs.{made_of, said_of, ending_after};

use base_answers::Number;
use command_output_rules::Made;
use command_rules::Ending;

// What a call makes that answered this number and wrote so many bytes: where the number is another than 0 it is refused.
pub fn made_of(number: u8, refusal: Ending, size: usize) -> Made
    ensures { result ≡ made_of number refusal size }
{
    if number != Number::DONE {
        return Made {
            ending: refusal,
            written: 0,
        };
    }
    Made {
        ending: Ending::Done,
        written: size,
    }
}

// What words make that have so many bytes, in a buffer with this room: where they don't fit, none of them is the output.
pub fn said_of(size: usize, room: usize) -> Made
    ensures { result ≡ said_of size room }
{
    if size > room {
        return Made {
            ending: Ending::OutputTooLong,
            written: 0,
        };
    }
    Made {
        ending: Ending::Done,
        written: size,
    }
}

// How the command ends, by what was made and whether all of the output has gone.
pub fn ending_after(made: Made, went: bool) -> Ending
    ensures { result ≡ ending_after made went }
{
    let ending = made.ending;
    match ending {
        Ending::Done => {
            if went {
                return Ending::Done;
            }
            Ending::Unwritten
        }
        _ => ending,
    }
}
