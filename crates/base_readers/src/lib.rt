// The combinators that every definition of the project is made of, and their laws (specs/, proofs/). The code is what every
// loop over a slice asks: `byte` answers the byte at a place, `is_at` whether it is a given one, `rest` how much is left. Any place may be
// asked for, also past the end. They are compiled into every loop, so that they are written out: with the library's `get` and `saturating_sub` in their
// place a reader of space takes three tenths more instructions.
#![tactic(auto)]

ghost use Rattle.std.specs.Prelude.{◌≡◌, ◌-◌, eqb, drop, get_or};

// The byte `k` past `at`, and 0 past the end.
pub fn byte(s: &[u8], at: usize, k: usize) -> u8
    ensures { result ≡ get_or (drop at s.now) k 0 }
{
    if at < s.len() {
        if k < s.len() - at {
            return s[at + k];
        }
    }
    0
}

// Whether that byte is x. Past the end it is 0.
pub fn is_at(s: &[u8], at: usize, k: usize, x: u8) -> bool
    ensures { result ≡ eqb (get_or (drop at s.now) k 0) x }
{
    byte(s, at, k) == x
}

// How much of n is left at i: nothing past the end.
pub fn rest(n: usize, i: usize) -> usize
    ensures { result ≡ n - i }
{
    if i < n { n - i } else { 0 }
}
