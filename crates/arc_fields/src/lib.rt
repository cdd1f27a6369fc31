// The instance at the front of the body of an ARC field (RFC 8617, 4.2.1).
#![tactic(auto)]

ghost use Rattle.std.specs.Prelude.{◌≡◌, true, ◌-◌, length};
ghost use Rattle.base_readers.specs.Texts.{within};
ghost use Rattle.base_readers.specs.Readers.{run};
ghost use Rattle.base_readers.specs.Places.{from};
ghost use Rattle.lexis_rules.specs.Bytes.{in_class};
ghost use Rattle.arc_rules.specs.Sets.{first_instance, last_instance, instance};
ghost use Rattle.arc_fields.specs.Answers.{no_instance, start_got};
ghost use Rattle.arc_fields.specs.Internal.{SeparatedAt, worth, numbered};

use lexis_rules::Class;

pub mod kinds;

// The number of an instance; 0 before any is known.
#[derive(Drop)]
pub struct Instance {
    pub number: usize,
}

impl Instance {
    // The lowest instance.
    pub const FIRST: usize = 1;

    // The highest instance.
    pub const LAST: usize = 50;

    // No instance yet.
    pub fn none() -> Instance
        ensures { result ≡ no_instance }
    {
        Instance { number: 0 }
    }

    // Whether a number is that of an instance.
    pub fn is_number(n: usize) -> bool
        ensures { result ≡ within first_instance last_instance n }
    {
        if n < Instance::FIRST {
            return false;
        }
        n <= Instance::LAST
    }
}

// The place after a byte with the space before it, where there is such a byte.
fn separator_end(s: &[u8], at: usize, b: u8) -> Option<usize>
    ensures { SeparatedAt b s.now at result }
{
    let a = lexis_space::space_end(s, at);
    if a < s.len() {
        if s[a] == b {
            return Some(a + 1);
        }
    }
    None
}

// What a digit is worth.
fn digit(b: u8) -> usize
    requires { in_class Class.Digit b ≡ true }
    ensures { result ≡ b - 48 }
{
    usize::from(b - b'0')
}

// What one or two digits are worth; 0 for none or for more.
fn worth(d: &[u8]) -> usize
    requires { run (in_class Class.Digit) d.now ≡ length d.now }
    ensures { result ≡ worth d.now }
{
    if d.len() == 1 {
        return digit(d[0]);
    }
    if d.len() == 2 {
        return digit(d[0]) * 10 + digit(d[1]);
    }
    0
}

// An instance and the place after its ";".
#[derive(Clone, Copy)]
pub struct Start {
    pub instance: usize,
    pub end: usize,
}

// The instance whose digits start at a place.
fn number_at(s: &[u8], at: usize) -> Option<Start>
    ensures { start_got result ≡ from numbered s.now at }
{
    let e = lexis_classes::run_end(s, at, Class::Digit);
    if e == at {
        return None;
    }
    let instance = worth(&s[at..e]);
    if !Instance::is_number(instance) {
        return None;
    }
    let end = separator_end(s, e, b';')?;
    Some(Start { instance, end })
}

// The instance of a body.
pub fn instance_of(body: &[u8]) -> Option<Start>
    ensures { start_got result ≡ instance body.now }
{
    let a = separator_end(body, 0, b'i')?;
    let b = separator_end(body, a, b'=')?;
    number_at(body, lexis_space::space_end(body, b))
}
