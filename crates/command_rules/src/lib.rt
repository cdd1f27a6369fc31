// What the command is asked for by its words, and the one line on standard error with which it ends: definitions and laws. Of code there are
// only the types of the two.
#![tactic(auto)]

// What the words of a call ask for, where that is something that the command does.
#[derive(Clone, Copy)]
pub enum Asked {
    Strip,
    // To strip, once the fields that go have been logged.
    Log,
    Report,
    Explain,
    Judge,
    Check,
    Write,
}

// How the command ended.
#[derive(Drop)]
pub enum Ending {
    // All of the output has been written.
    Done,
    // The words ask for nothing that it does.
    Usage,
    // The list can't be opened.
    ListClosed,
    // A read of the list failed.
    ListUnread,
    // A read of the block or of the lines failed.
    InputUnread,
    // There are more report lines than are read.
    InputTooLong,
    // The output does not fit its buffer.
    OutputTooLong,
    // A write of the output failed.
    Unwritten,
    // The verdicts are not those that the chain needs, which has so many sets (01, number 10).
    VerdictsRefused { sets: usize },
    // A block or our own list is refused, by a number of 01.
    Refused { number: u8, place: usize },
    // Report lines are refused, by a number of 02.
    LinesRefused { number: u8, place: usize },
}
