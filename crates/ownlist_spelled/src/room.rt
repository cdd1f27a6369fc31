// The room for our own list as it is compared, all zeros.
//
// It is a function of another crate than its callers, because an array that a call returns costs the check of its caller nothing, and one of its own costs by its length.
ghost use Rattle.std.specs.Prelude.{◌≡◌, length, replicate};

use ownlist_check::Entries;
use punycode::Spelling;

// The most bytes of a list as it is compared: each entry with the longest spelling, and LF.
pub const SPELLED: usize = Entries::ENTRIES * (Spelling::LONGEST + 1);

// For a list as it is compared.
pub fn spelled() -> [u8; SPELLED]
    ensures value { result ≡ replicate 65344 0 }
    ensures value_2 { 65344 ≡ length result }
{
    [0u8; SPELLED]
}
