// Stripping: definitions and theorems. Of code there is only the type of an answer.
#![tactic(auto)]

// What stripping answers, and so `strip::copy`: number and place, kept and removed bytes, and removed fields.
#[derive(Drop)]
pub struct Stripped {
    pub number: u8,
    pub place: usize,
    pub kept: usize,
    pub removed: usize,
    pub fields: usize,
}
