// Where the lines of our own list end.
ghost use Rattle.std.specs.Prelude.{◌≡◌, ◌+◌, drop};
ghost use Rattle.base_sequences.specs.Stored.{Put};
ghost use Rattle.base_readers.specs.Lines.{feedless, until_feed};
ghost use Rattle.ownlist_rules.specs.Ends.{ends_of};

use base_runs::ByteTest;

// The bytes of a line: any but LF.
#[derive(Drop)]
struct LineByte;

impl ByteTest for LineByte {
    ghost passes = { λ t. feedless };

    fn passes(&self, b: u8) -> bool {
        b != b'\n'
    }
}

// The next LF, or the end: sixteen bytes at a time.
pub fn line_end(s: &[u8], at: usize) -> usize
    ensures { result ≡ at + until_feed (drop at s.now) }
{
    base_runs::wide_run_end::<16, _>(s, at, &LineByte)
}

// Stores where the lines of a list as it is compared end, as many as there is room for, and returns how many lines there are. Any bytes are taken
// for such a list: a line is what stands before an LF, or before the end. A line is as long as it is read to be, so there is no range to go over.
pub fn line_ends(own: &[u8], ends: &mut [usize]) -> usize
    ensures { Put ends.old 0 (ends_of own.now) ends.new result }
{
    let mut at: usize = 0;
    let mut k: usize = 0;
    while at < own.len() {
        let e = line_end(own, at);
        text_parts::places::keep(ends, k, e);
        k += 1;
        at = e + 1;
    }
    k
}
