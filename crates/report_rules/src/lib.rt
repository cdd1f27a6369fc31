// A whole field body, what it says, the report of it and the answers; and that newer versions are never misread. Of code there is only the type of an answer.
#![tactic(auto)]

// What `report::report` answers: number and place, how many bytes were written, and how many results are ignored.
#[derive(Clone, Copy)]
pub struct Reported {
    pub number: u8,
    pub place: usize,
    pub written: usize,
    pub ignored: usize,
}
