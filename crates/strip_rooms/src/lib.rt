// Rooms for a mark and a place of each field that a block may have, all zeros.
//
// They stand in a crate of their own because an array that a call returns costs the check of its caller nothing, and one of its own costs by its length.
#![tactic(auto)]

ghost use Rattle.std.specs.Prelude.{◌≡◌, length, replicate};

use block::Walk;

// For a byte of each field.
pub fn marks() -> [u8; Walk::FIELDS]
    ensures value { result ≡ replicate 512 0 }
    ensures value_2 { 512 ≡ length result }
{
    [0u8; Walk::FIELDS]
}

// For a place of each field.
pub fn stops() -> [usize; Walk::FIELDS]
    ensures value { result ≡ replicate 512 0 }
    ensures value_2 { 512 ≡ length result }
{
    [0usize; Walk::FIELDS]
}
