// What each subcommand makes of what was read: definitions and worked examples. Of code there is only the type of an answer.
#![tactic(auto)]

use command_rules::Ending;

// What a subcommand made: how the command ends once the output has gone, and how many bytes at the front of the lent buffer are the output. A refusal has none.
// It is no `Result<usize, Ending>`: theorems (`Tells` in command_laws) name what is written of a refusal too, and an error that says done would mean nothing.
#[derive(Drop)]
pub struct Made {
    pub ending: Ending,
    pub written: usize,
}
