// What the walking reader gives: definitions and theorems. Of code there is only the type of an answer.
#![tactic(auto)]

// What a step gives. The last answer is a number and a place, as in the C interface and in the theorems of specs/Whole.antt. A field runs from
// `start` up to `end`, its last CRLF included; its name from `start` up to `name_end`, its body from `body_start` up to two before `end`.
#[derive(Drop)]
pub enum Step {
    Field {
        start: usize,
        name_end: usize,
        body_start: usize,
        end: usize,
    },
    Last {
        number: u8,
        place: usize,
    },
}
