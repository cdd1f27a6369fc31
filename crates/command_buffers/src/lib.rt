// The buffers of the command, all zeros, each with room for the most that the limits of 01 and 02 let it hold.
//
// They stand in a crate of their own because an array that a call returns costs the check of a program nothing, and one of its own costs by
// its length.
#![tactic(auto)]

ghost use Rattle.std.specs.Prelude.{◌≡◌, length, replicate};

use block::Walk;
use lexis_limits::Size;
use ownlist_check::Entries;

// The most bytes of a block that are read: one more than a block may have. What is kept of one, and a body, fit too (`strip-room` and `write-room` in
// command_laws/proofs/AsAnswered.antt).
pub const BLOCK: usize = Size::MOST + 1;

// The most bytes of a list that are read: all entries that a list may have, each with its LF, and one more that is too long. What is behind
// these can't change which entry is the first bad one. What is noticed of a list fits too (`notes-fit` in command_list_rules/proofs/Fits.antt).
pub const LIST: usize = (Entries::ENTRIES + 1) * (Entries::LONGEST + 1);

// A room for the reports of all fields of a block, and one byte more: three bytes for each byte of a block and 64 for each field (`room-enough` in
// blockreport_laws/proofs/Rooms.antt, for both details). What `check` says of our own list fits too (`check-fits` in command_list_rules/proofs/Fits.antt).
pub const REPORTS: usize = 3 * Size::MOST + 64 * Walk::FIELDS + 1;

// The most bytes of report lines that are read, and one more to tell that there are more. A body that may be written has lines of at most
// three times its bytes and four more; whether longer ones are refused with 11 or with 1 can only be told from all of them, so what isn't read
// whole gets a refusal of its own.
pub const LINES: usize = 4 * Size::MOST + 1;

// A room for the reports of a block in words (`explained-fits` in command_laws/proofs/ExplainRooms.antt).
pub const EXPLAINED: usize = 786432;

// A room for a judgement (`judgement-fits` in command_laws/proofs/JudgementRooms.antt).
pub const JUDGEMENT: usize = 512;

// A room for the last line (`ending-fits` in command_rules/proofs/EndingsFit.antt).
pub const LINE: usize = 256;

// The most bytes of an argument that are read: one more than a path may have.
pub const WORD: usize = 4096;

// For a block, what is kept of it, or a body.
pub fn block() -> [u8; BLOCK]
    ensures value { result ≡ replicate 65537 0 }
    ensures value_2 { 65537 ≡ length result }
{
    [0u8; BLOCK]
}

// For our own list.
pub fn list() -> [u8; LIST]
    ensures value { result ≡ replicate 16640 0 }
    ensures value_2 { 16640 ≡ length result }
{
    [0u8; LIST]
}

// For the reports of a block's fields.
pub fn reports() -> [u8; REPORTS]
    ensures value { result ≡ replicate 229377 0 }
    ensures value_2 { 229377 ≡ length result }
{
    [0u8; REPORTS]
}

// For report lines.
pub fn lines() -> [u8; LINES]
    ensures value { result ≡ replicate 262145 0 }
    ensures value_2 { 262145 ≡ length result }
{
    [0u8; LINES]
}

// For the reports of a block in words.
pub fn explained() -> [u8; EXPLAINED]
    ensures value { result ≡ replicate 786432 0 }
    ensures value_2 { 786432 ≡ length result }
{
    [0u8; EXPLAINED]
}

// For a judgement.
pub fn judgement() -> [u8; JUDGEMENT]
    ensures value { result ≡ replicate 512 0 }
    ensures value_2 { 512 ≡ length result }
{
    [0u8; JUDGEMENT]
}

// For an argument.
pub fn word() -> [u8; WORD]
    ensures value { result ≡ replicate 4096 0 }
    ensures value_2 { 4096 ≡ length result }
{
    [0u8; WORD]
}

// For the last line.
pub fn line() -> [u8; LINE]
    ensures value { result ≡ replicate 256 0 }
    ensures value_2 { 256 ≡ length result }
{
    [0u8; LINE]
}
