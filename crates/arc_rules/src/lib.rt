// ARC chains (RFC 8617): definitions and theorems. Of code there are only the types that they name.
#![tactic(auto)]

// `Other` is a field of another name.
#[derive(Clone, Copy)]
pub enum Kind {
    Results,
    Signature,
    Seal,
    Other,
}

// What `arc::judge` answers: number and place, the outcome with its reason and the number of the field that it names, the instances of a built chain, the status and the
// oldest-pass.
#[derive(Clone, Copy)]
pub struct Judged {
    pub number: u8,
    pub place: usize,
    pub outcome: u8,
    pub reason: u8,
    pub field: usize,
    pub instances: usize,
    pub status: u8,
    pub oldest: usize,
}
