// The buffers of the programs that run cases.
//
// They are functions of another crate than the programs, because an array that a call returns costs the check of a program nothing, and one of its own costs by
// its length.
ghost use Rattle.std.specs.Prelude.{◌≡◌, length, replicate};

// Room for an argument, or a line: 4,096 zeros.
pub fn line() -> [u8; 4096]
    ensures value { result ≡ replicate 4096 0 }
    ensures value_2 { 4096 ≡ length result }
{
    [0u8; 4096]
}

// Room for the file of a case: 210,000 zeros.
pub fn zeros() -> [u8; 210000]
    ensures value { result ≡ replicate 210000 0 }
    ensures value_2 { 210000 ≡ length result }
{
    [0u8; 210000]
}

// Room for 256 bytes that are shown: 768 zeros.
pub fn text() -> [u8; 768]
    ensures value { result ≡ replicate 768 0 }
    ensures value_2 { 768 ≡ length result }
{
    [0u8; 768]
}

// Bytes to lend: 200,000 of 170.
pub fn untouched() -> [u8; 200000]
    ensures value { result ≡ replicate 200000 170 }
    ensures value_2 { 200000 ≡ length result }
{
    [170u8; 200000]
}
