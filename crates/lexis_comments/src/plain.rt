// The plain bytes of a comment: `plain_end` answers where a run of them ends.
//
// It is handed a slice and a place, any place, also past the end, and answers the place itself where there is none.
ghost use Rattle.std.specs.Prelude.{◌≡◌, ◌+◌, drop};
ghost use Rattle.base_readers.specs.Readers.{run};
ghost use Rattle.lexis_rules.specs.Bytes.{in_class};
ghost use Rattle.lexis_rules.specs.declared.Class.TheVariants.{Comment};

use base_runs::ByteTest;
use lexis_rules::Class;

// The plain bytes of a comment. Those that may not be one are told by a few compares.
#[derive(Drop)]
struct Plain;

impl ByteTest for Plain {
    ghost passes = { λ t. in_class Comment };

    fn passes(&self, b: u8) -> bool {
        lexis_classes::in_class(Class::Comment, b)
    }

    fn may_fail(&self, b: u8) -> bool {
        (b < 32) | (b == b'(') | (b == b')') | (b == b'\\') | (b > 126)
    }
}

// The end of a run of plain bytes of a comment, where there often is none: the first byte tells. Comments one inside the other and pairs pay for no wide
// test.
pub fn plain_end(s: &[u8], at: usize) -> usize
    ensures { result ≡ at + run (in_class Class.Comment) (drop at s.now) }
{
    if lexis_classes::class_at(s, at, 0, Class::Comment) {
        return base_runs::wide_run_end::<16, _>(s, at, &Plain);
    }
    at
}
