// The small pieces of a field body: definitions and laws. Of code there are only the types that they name.
#![tactic(auto)]

// The classes of bytes (`in_class` in specs/Bytes.antt; the bytes of each are listed in proofs/ClassExamples.antt).
#[derive(Clone, Copy)]
pub enum Class {
    Blank,
    Opening,
    Zero,
    Digit,
    Keyword,
    Token,
    Quoted,
    Comment,
    Escaped,
    Name,
    Visible,
    Delimiter,
    Tag,
}

// A token or a quoted string, with the place after it.
#[derive(Drop)]
pub enum Value {
    Token { start: usize, end: usize },
    Quoted { start: usize, end: usize },
    Nothing,
}

// The number of a digit run: itself up to 999,999, and else that it is large (`number_of` in specs/Numbers.antt; 02, ticket [3]).
#[derive(Drop)]
pub enum VersionNumber {
    Exact { number: u32 },
    Large,
}

// A digit run: its first digit that counts, the place after it, and its number. There is none where `end` is the place asked for.
#[derive(Drop)]
pub struct Digits {
    pub start: usize,
    pub end: usize,
    pub number: VersionNumber,
}
