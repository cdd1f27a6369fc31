// What the report of a block says to a person, in words: definitions and laws. Of code there is only the type of what a line is.
#![tactic(auto)]

// What a line of the report of a block is, by its first column. `Other` stays a variant, and no `None` of an `Option<Line>`: all that is said of a line is said of
// such a one too, so no function would take a bare `Line`, and each variant would stand in a `Some`.
#[derive(Drop)]
pub enum Line {
    Field,
    Identifier,
    Version,
    NoResult,
    Method,
    Reason,
    Property,
    // No line of a report.
    Other,
}
