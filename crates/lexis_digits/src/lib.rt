// Digit runs, and the numbers that they tell.
#![tactic(auto)]

ghost use Rattle.std.specs.Prelude.{◌≡◌, false, true, ◌+◌, ◌-◌, ◌≤◌, drop};
ghost use Rattle.lexis_rules.specs.Bytes.{in_class};
ghost use Rattle.lexis_rules.specs.Pieces.{digits, leading, decimal};
ghost use Rattle.lexis_rules.specs.Numbers.{is_one};
ghost use Rattle.lexis_rules.specs.Answers.{digits_at};

use lexis_rules::{Class, Digits, VersionNumber};

// The first digit that counts of the digit run from `at` up to `end`.
fn counted_from(s: &[u8], at: usize, end: usize) -> usize
    requires { end ≡ at + digits (drop at s.now) }
    ensures { result ≡ at + leading (drop at s.now) }
{
    let z = lexis_classes::run_end(s, at, Class::Zero);
    if z != end {
        return z;
    }
    if end == at {
        return at;
    }
    end - 1
}

// What a digit is worth.
fn digit(b: u8) -> u32
    requires { in_class Class.Digit b ≡ true }
    ensures { result ≡ b - 48 }
{
    u32::from(b - b'0')
}

// The number of a run of at most six digits, from `start` up to `end`.
fn sum(s: &[u8], start: usize, end: usize) -> u32
    requires { (end ≡ start + digits (drop start s.now)) × (end ≤ start + 6) }
    ensures { result ≡ decimal 0 (drop start s.now) }
{
    let mut n: u32 = 0;
    for k in start..end {
        n = n * 10 + digit(s[k]);
    }
    n
}

// The digit run at a place. More than six digits that count make a large number, and are not summed up: none can be too long.
pub fn digits_at(s: &[u8], at: usize) -> Digits
    ensures { result ≡ digits_at s.now at }
{
    let end = lexis_classes::run_end(s, at, Class::Digit);
    let start = counted_from(s, at, end);
    if end - start > 6 {
        return Digits {
            start,
            end,
            number: VersionNumber::Large,
        };
    }
    let number = sum(s, start, end);
    Digits {
        start,
        end,
        number: VersionNumber::Exact { number },
    }
}

// Whether a number is 1.
pub fn is_one(number: VersionNumber) -> bool
    ensures { result ≡ is_one number }
{
    match number {
        VersionNumber::Exact { number } => number == 1,
        VersionNumber::Large => false,
    }
}
