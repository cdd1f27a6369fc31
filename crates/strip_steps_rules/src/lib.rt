// Stripping in two steps: definitions. Of code there is only the type of the first step's answer; the second answers as stripping does.
#![tactic(auto)]

// What `strip::mark` answers: number, place, and how many bytes were written, one for each field.
#[derive(Drop)]
pub struct Marked {
    pub number: u8,
    pub place: usize,
    pub written: usize,
}
