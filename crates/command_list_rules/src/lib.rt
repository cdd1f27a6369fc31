// What the command notices of our own list, and what `check` says of it: definitions, worked examples and how long the texts are. Of code there
// are only the types of what is noticed and of what is said.
#![tactic(auto)]

// What is noticed of an entry of a good list, where something is.
#[derive(Clone, Copy)]
pub enum Notice {
    // It begins with a byte order mark.
    Mark,
    // It begins with "#".
    Hash,
    // It has a byte that no identifier without quotes can have.
    Unbare,
    // It has "*".
    Star,
}

// What is said of the entries of a list.
#[derive(Clone, Copy)]
pub enum Said {
    // How each is compared.
    Compared,
    // What is noticed of each.
    Noticed,
    // The same, for standard error.
    Noted,
}
