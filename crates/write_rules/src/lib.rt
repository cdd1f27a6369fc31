// Our own field: report lines read back, and the body that is written from them. Of code there is only the type of an answer.
#![tactic(auto)]

// What `write::write` answers: number, place, and how many bytes were written.
#[derive(Clone, Copy)]
pub struct Written {
    pub number: u8,
    pub place: usize,
    pub written: usize,
}
