// Whether two hyphens stand in a row in a text. A label that starts with xn-- has them, so a text without them is its own spelling
// (`spelling-single-hyphens` in punycode_laws/proofs/SpellingTheorems.antt), and nothing else need be asked.
#![tactic(auto)]

ghost use Rattle.std.specs.Prelude.{◌≡◌, false, ◌&&◌, ◌+◌, ◌<◌, eqb, length, drop};
ghost use Rattle.punycode_rules.specs.Labels.{double_hyphen};

// Whether two bytes are hyphens.
fn are_hyphens(a: u8, b: u8) -> bool
    ensures { result ≡ (eqb a 45 && eqb b 45) }
{
    (a == b'-') & (b == b'-')
}

// Whether two hyphens in a row start at one of n bytes. There is no way out of the loop, so that with n a number in the call it is compiled
// to a few wide compares.
fn double_among(s: &[u8], at: usize, n: usize) -> bool
    requires { at + n < length s.now }
    ensures { result ≡ false → double_hyphen (drop (at + n) s.now) ≡ double_hyphen (drop at s.now) }
{
    let mut hit = false;
    for j in 0..n {
        hit |= are_hyphens(s[at + j], s[at + j + 1]);
    }
    hit
}

// Whether a text has two hyphens in a row from a place on. Where the second of two bytes is none, neither can be the first of two: it
// goes on by one byte or by two, so that it is no `for`.
fn double_from(s: &[u8], at: usize) -> bool
    ensures { result ≡ double_hyphen (drop at s.now) }
{
    let mut i = at;
    loop {
        if base_readers::rest(s.len(), i) < 2 {
            return false;
        }
        if s[i + 1] != b'-' {
            i += 2;
        } else if s[i] != b'-' {
            i += 1;
        } else {
            return true;
        }
    }
}

// A place from which on two hyphens in a row stand where they do from the first place on: N bytes at a time. That place is the answer, so it is kept,
// and no iterator of pieces; two bytes in a row are asked, which is no test of single bytes (`base_runs`).
fn plain_front<const N: usize>(s: &[u8], at: usize) -> usize
    ensures { double_hyphen (drop result s.now) ≡ double_hyphen (drop at s.now) }
{
    let mut i = at;
    while 0 < N && N < base_readers::rest(s.len(), i) {
        if double_among(s, i, N) {
            break;
        }
        i += N;
    }
    i
}

// Whether a text has two hyphens in a row: sixty-four bytes at a time, then sixteen, and one at a time from the first sixteen on that have them.
pub fn has_double_hyphen(s: &[u8]) -> bool
    ensures { result ≡ double_hyphen s.now }
{
    let far = plain_front::<64>(s, 0);
    let near = plain_front::<16>(s, far);
    double_from(s, near)
}
