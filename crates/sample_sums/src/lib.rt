// What the programs that run cases tell of bytes: `adler` a sum, `changed` how many are not what stood there before.
#![tactic(auto)]

ghost use Rattle.std.specs.Prelude.{◌≡◌};
ghost use Rattle.sample_sums.specs.Sums.{adler, changed};

// The Adler-32 sum of the bytes (RFC 1950, 2.2).
pub fn adler(s: &[u8]) -> u64
    ensures { result ≡ adler s.now }
{
    let mut low: u64 = 1;
    let mut high: u64 = 0;
    for b in s {
        low = (low + u64::from(*b)) % 65521;
        high = (high + low) % 65521;
    }
    high * 65536 + low
}

// How many of the bytes are not 170, which is what stands in a buffer before it is lent. Each byte counts for 0 or 1 without a branch, so that the loop
// is compiled to wide adds: with the library's `filter` and `count` a program's case takes two fifths more instructions.
pub fn changed(s: &[u8]) -> usize
    ensures { result ≡ changed s.now }
{
    let mut count: usize = 0;
    for b in s {
        count += usize::from(*b != 170);
    }
    count
}
