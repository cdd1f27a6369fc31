// The columns of a report line, read (02, ticket [1]): coded texts, keywords, kind letters, and whether what they say can stand in a body.
// A reader that finds nothing answers the place that it was given.
#![tactic(auto)]

pub mod coded;
pub mod shown;
pub mod words;
