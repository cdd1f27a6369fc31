// Our own list of identifiers, answer 5, and whose an identifier is by it: definitions and worked examples. Of code there is only the type of an answer.
#![tactic(auto)]

// Whose the identifier of a body is.
#[derive(Drop)]
pub enum Own {
    Ours,
    Others,
    Unreadable,
}
