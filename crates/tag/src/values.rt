// The runs of plain bytes that the values of tags are mostly made of.
//
// `plain_end(s, at)` is handed a slice and a place, any place, also past the end. It answers the place after the run that starts there, or the
// place itself.
ghost use Rattle.std.specs.Prelude.{◌≡◌, ◌+◌, drop};
ghost use Rattle.base_readers.specs.Readers.{run};
ghost use Rattle.lexis_rules.specs.Bytes.{in_class};
ghost use Rattle.lexis_rules.specs.declared.Class.TheVariants.{Tag};

use base_runs::ByteTest;
use lexis_rules::Class;

// The plain bytes of the value of a tag. Those that may not be one are told by a few compares.
#[derive(Drop)]
struct Plain;

impl ByteTest for Plain {
    ghost passes = { λ t. in_class Tag };

    fn passes(&self, b: u8) -> bool {
        lexis_classes::in_class(Class::Tag, b)
    }

    fn may_fail(&self, b: u8) -> bool {
        (b < 32) | (b == b';') | (b > 126)
    }
}

// The end of a run of plain bytes of the value of a tag: sixteen bytes at a time.
pub fn plain_end(s: &[u8], at: usize) -> usize
    ensures { result ≡ at + run (in_class Class.Tag) (drop at s.now) }
{
    base_runs::wide_run_end::<16, _>(s, at, &Plain)
}
