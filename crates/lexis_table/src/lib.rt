// Runs of bytes of a class, by a table of 256 entries (02, ticket [5]).
//
// The table is `lexis_table::table::entry`. So that it is compiled into the loop, the test `Of` alone calls it.
#![tactic(auto)]

ghost use Rattle.std.specs.Prelude.{◌≡◌, ◌+◌, drop};
ghost use Rattle.base_readers.specs.Readers.{run};
ghost use Rattle.lexis_rules.specs.Bytes.{in_class};
ghost use Rattle.lexis_table.specs.Internal.{digit_of, has_digit};

use base_runs::ByteTest;
use lexis_rules::Class;

mod table;

// The binary digit of a class.
fn digit(c: Class) -> u16
    ensures { result ≡ digit_of c }
{
    match c {
        Class::Blank => 0x0001,
        Class::Opening => 0x0002,
        Class::Zero => 0x0004,
        Class::Digit => 0x0008,
        Class::Keyword => 0x0010,
        Class::Token => 0x0020,
        Class::Quoted => 0x0040,
        Class::Comment => 0x0080,
        Class::Escaped => 0x0100,
        Class::Name => 0x0200,
        Class::Visible => 0x0400,
        Class::Delimiter => 0x0800,
        Class::Tag => 0x1000,
    }
}

// The bytes of the class that has a binary digit. `passes` alone looks into the table.
#[derive(Drop)]
struct Of(u16);

impl ByteTest for Of {
    ghost passes = { λ t. has_digit t.0 };

    fn passes(&self, b: u8) -> bool {
        table::entry(b) & self.0 != 0
    }
}

// The end of the run of bytes of a class.
pub fn run_end(s: &[u8], at: usize, c: Class) -> usize
    ensures { result ≡ at + run (in_class c) (drop at s.now) }
{
    Of(digit(c)).run_end(s, at)
}
