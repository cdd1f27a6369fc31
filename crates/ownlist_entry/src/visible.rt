// Runs of visible bytes, 33 to 126.
ghost use Rattle.std.specs.Prelude.{◌≡◌, ◌+◌, drop};
ghost use Rattle.lexis_rules.specs.Bytes.{in_class};
ghost use Rattle.lexis_rules.specs.declared.Class.TheVariants.{Visible};
ghost use Rattle.ownlist_rules.specs.OwnList.{visible};

use base_runs::ByteTest;

// From 33 to 126. Where a byte may not be one both tests are made, so that many bytes can be tested at once.
#[derive(Drop)]
struct VisibleByte;

impl ByteTest for VisibleByte {
    ghost passes = { λ t. in_class Visible };

    fn passes(&self, b: u8) -> bool {
        33 <= b && b <= 126
    }

    fn may_fail(&self, b: u8) -> bool {
        (b < 33) | (b > 126)
    }
}

// The end of a run of visible bytes: sixteen bytes at a time.
pub fn visible_end(s: &[u8], at: usize) -> usize
    ensures { result ≡ at + visible (drop at s.now) }
{
    base_runs::wide_run_end::<16, _>(s, at, &VisibleByte)
}
