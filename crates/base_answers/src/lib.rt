// The numbers that calls answer with, by name, each once: those of document 01, "Answer numbers", and of the tickets that add one; the outcomes, reasons and statuses of a chain;
// its chain values; and what a verdict counts. There are no functions here. They are numbers and no enums: the C structs hand them on, and document 01 and the
// theorems of `promises` (Demand1, Ticket14) name them.
#![tactic(auto)]

// What a call answers: 0 and 8 are reports, all others refusals.
#[derive(Drop)]
pub struct Number {}

impl Number {
    // Done.
    pub const DONE: u8 = 0;
    // A block or body has more than 65,536 bytes.
    pub const TOO_LONG: u8 = 1;
    // A CR without LF, an LF without CR, or a last line without CRLF.
    pub const LINE_END: u8 = 2;
    // An empty line, a first line that starts with space or tab, or a field without name or colon.
    pub const NO_FIELD: u8 = 3;
    // A 513th field.
    pub const TOO_MANY_FIELDS: u8 = 4;
    // A bad own list.
    pub const BAD_LIST: u8 = 5;
    // The lent output is shorter than the whole output.
    pub const TOO_SHORT: u8 = 6;
    // The identifier can't be read.
    pub const UNREADABLE: u8 = 7;
    // The header version isn't 1.
    pub const NEWER: u8 = 8;
    // The body is not well-formed.
    pub const MALFORMED: u8 = 9;
    // Bad verdicts.
    pub const BAD_VERDICTS: u8 = 10;
    // No body has that report (02, ticket [1]).
    pub const NO_SUCH_REPORT: u8 = 11;
    // Bad pairs of method and version (02, ticket [4]).
    pub const BAD_PAIRS: u8 = 12;
    // The marks handed in are not those of this block and list (02, ticket [7]).
    pub const OTHER_MARKS: u8 = 13;
    // The next instance would be past 50 (02, ticket [9]).
    pub const PAST_LAST: u8 = 14;
    // Lengths that don't sum to the buffer, over 256 of them, or too little room for numbers and lengths (02, ticket [13]).
    pub const BAD_LENGTHS: u8 = 15;
    // The chain failed by reason (d), so that no set may be added (02, ticket [9]).
    pub const CHAIN_ENDED: u8 = 16;
    // No field has a trusted identifier (02, ticket [12]).
    pub const NO_TRUSTED_FIELD: u8 = 17;
    // A text for the seal that can't stand in it (02, ticket [9]).
    pub const BAD_SEAL_TEXT: u8 = 18;
}

// What came of the ARC fields of a block.
#[derive(Drop)]
pub struct Outcome {}

impl Outcome {
    // There are none.
    pub const NONE: u8 = 0;
    // The chain failed.
    pub const FAILED: u8 = 1;
    // The chain is built.
    pub const BUILT: u8 = 2;
}

// Why a chain failed: the first that applies.
#[derive(Drop)]
pub struct Reason {}

impl Reason {
    // It did not fail.
    pub const NONE: u8 = 0;
    // (a) An unreadable field.
    pub const UNREADABLE: u8 = 1;
    // (b) A repeated kind at one instance.
    pub const REPEATED: u8 = 2;
    // (c) An empty place.
    pub const EMPTY_PLACE: u8 = 3;
    // (d) The last seal has cv fail.
    pub const LAST_FAIL: u8 = 4;
    // (e) A seal has another cv than the one prescribed.
    pub const NOT_PRESCRIBED: u8 = 5;
}

// What a chain says by the verdicts.
#[derive(Drop)]
pub struct Status {}

impl Status {
    // There is no chain.
    pub const NONE: u8 = 0;
    // All seals and the last signature are good.
    pub const PASS: u8 = 1;
    // The chain failed, or a seal or the last signature is bad.
    pub const FAIL: u8 = 2;
}

// The chain value of a seal; 0 for any other text.
#[derive(Drop)]
pub struct ChainValue {}

impl ChainValue {
    // cv=none.
    pub const NONE: u8 = 1;
    // cv=pass.
    pub const PASS: u8 = 2;
    // cv=fail.
    pub const FAIL: u8 = 3;
}

// What a verdict counts.
#[derive(Drop)]
pub struct Verdict {}

impl Verdict {
    // A good signature.
    pub const SIGNATURE: u8 = 1;
    // A good seal.
    pub const SEAL: u8 = 2;
    // Both.
    pub const MOST: u8 = Verdict::SIGNATURE + Verdict::SEAL;
}
