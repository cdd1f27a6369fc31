// The report of a header block: definitions and theorems. Of code there are only the types of what is asked for and of an answer.
#![tactic(auto)]

// What is told of a field. `Reported`: its line and the report of its body. `Identified`: also the identifier of a field that answers 9, which has no report.
#[derive(Clone, Copy)]
pub enum Detail {
    Reported,
    Identified,
}

// What `blockreport::report_block` answers: number and place, and how many bytes were written.
#[derive(Drop)]
pub struct BlockReported {
    pub number: u8,
    pub place: usize,
    pub written: usize,
}
