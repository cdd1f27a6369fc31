// The arithmetic of Punycode (RFC 3492, sections 5 and 6): digits, thresholds, the bias, and the variables of the decoding procedure. No sum
// and no product overflows.
ghost use Rattle.std.specs.Prelude.{◌≡◌, ◌+◌, ◌*◌, ◌<◌, ◌≤◌};
ghost use Rattle.punycode_rules.specs.Punycode.{digit_of, adapt, scaled, threshold};
ghost use Rattle.punycode_rules.specs.Unicode.{scalar};
ghost use Rattle.punycode_rules.specs.Labels.{spelling_limit};
ghost use Rattle.punycode.specs.Internal.{limit, fresh_numbers, last_of, more_of, Small};

// The variables of the decoding procedure (RFC 3492, section 6.2). That they are small (`Small`) is asked for by each method, and is no invariant of the
// type: it doesn't hold of what `last` gives, before it is known that n is a code point.
#[derive(Clone, Copy)]
pub(crate) struct Numbers {
    pub(crate) n: u64,
    pub(crate) i: u64,
    pub(crate) bias: u64,
    pub(crate) old: u64,
    pub(crate) w: u64,
    pub(crate) k: u64,
}

impl Numbers {
    // RFC 3492, section 5.
    pub(crate) const BASE: u64 = 36;

    const TMIN: u64 = 1;

    const TMAX: u64 = 26;

    const SKEW: u64 = 38;

    const DAMP: u64 = 700;

    const INITIAL_BIAS: u64 = 72;

    const INITIAL_N: u64 = 128;

    const SHARE: u64 = Numbers::BASE - Numbers::TMIN;
    // How large a delta is scaled down (section 6.1).
    const SCALED_FROM: u64 = Numbers::SHARE * Numbers::TMAX / 2;
    // Where i is as large as this, the next code point is above 10FFFF hex, if there are no more than 1,020 before it.
    pub(crate) const LIMIT: u64 = 0x110000 * 1021;

    // Before the first digit.
    pub(crate) fn fresh() -> Numbers
        ensures { result ≡ fresh_numbers }
    {
        Numbers {
            n: Numbers::INITIAL_N,
            i: 0,
            bias: Numbers::INITIAL_BIAS,
            old: 0,
            w: 1,
            k: Numbers::BASE,
        }
    }

    // i + digit * w.
    pub(crate) fn advanced(self, d: u64) -> u64
        requires { (Small self) × (d < 36) }
        ensures { result ≡ self.i + d * self.w }
    {
        self.i + d * self.w
    }

    // The threshold of the next digit.
    pub(crate) fn threshold(self) -> u64
        requires { self.bias ≤ 72 * limit + 36 }
        ensures { result ≡ threshold self.k self.bias }
    {
        if self.k <= self.bias {
            return Numbers::TMIN;
        }
        if self.bias + Numbers::TMAX <= self.k {
            return Numbers::TMAX;
        }
        self.k - self.bias
    }

    // The variables after a digit with which the number goes on.
    pub(crate) fn more(self, d: u64) -> Numbers
        requires { (Small self) × (d < 36) }
        ensures { result ≡ more_of self d }
    {
        let t = self.threshold();
        Numbers {
            n: self.n,
            i: self.advanced(d),
            bias: self.bias,
            old: self.old,
            w: self.w * (Numbers::BASE - t),
            k: self.k + Numbers::BASE,
        }
    }

    // The variables after a digit that ends its number, where there are so many code points before: n is to be inserted at i - 1.
    pub(crate) fn last(self, d: u64, count: u64) -> Numbers
        requires { (Small self) × (d < 36) × (self.i + d * self.w < limit) × (count ≤ spelling_limit) }
        ensures { result ≡ last_of self d count }
    {
        let i = self.advanced(d);
        let points = count + 1;
        let bias = adapt(i - self.old, points, self.old == 0);
        let j = i % points + 1;
        Numbers {
            n: self.n + i / points,
            i: j,
            bias,
            old: j,
            w: 1,
            k: Numbers::BASE,
        }
    }
}

// Whether UTF-8 encodes a number: up to 10FFFF hex, and no surrogate.
pub(crate) fn is_scalar(x: u64) -> bool
    ensures { result ≡ scalar x }
{
    matches!(x, 0..=0xD7FF | 0xE000..=0x10FFFF)
}

// The digit of a byte; BASE where it is none.
pub(crate) fn digit_of(b: u8) -> u64
    ensures { result ≡ digit_of b }
{
    match b {
        b'a'..=b'z' => u64::from(b - b'a'),
        b'A'..=b'Z' => u64::from(b - b'A'),
        b'0'..=b'9' => u64::from(b - b'0') + 26,
        _ => Numbers::BASE,
    }
}

// The bias after a delta that is halved or damped (section 6.1): it is scaled down, with BASE more for each time. How
// often that is hangs on its size, so there is no range to go over.
fn scaled(delta: u64) -> u64
    requires { delta ≤ 2 * limit }
    ensures { result ≡ scaled delta 0 delta }
{
    let mut d = delta;
    let mut k: u64 = 0;
    while Numbers::SCALED_FROM < d {
        d /= Numbers::SHARE;
        k += Numbers::BASE;
    }
    k + Numbers::BASE * d / (d + Numbers::SKEW)
}

// The bias after a delta, where there are now so many code points (section 6.1).
fn adapt(delta: u64, points: u64, first: bool) -> u64
    requires { (delta ≤ limit) × (1 ≤ points) }
    ensures { result ≡ adapt delta points first }
{
    let d = if first {
        delta / Numbers::DAMP
    } else {
        delta / 2
    };
    scaled(d + d / points)
}
