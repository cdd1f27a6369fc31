// Texts compared but for ASCII case, and bytes in lower case.
#![tactic(auto)]

ghost use Rattle.std.specs.Prelude.{◌≡◌, true, false, ◌+◌, ◌≤◌, eqb, length};
ghost use Rattle.lexis_rules.specs.Bytes.{lower, alike};
ghost use Rattle.text_compare.specs.Internal.{Compared};

pub mod exact;

// The small letter of a capital, and any other byte itself.
pub fn lower(b: u8) -> u8
    ensures { result ≡ lower b }
{
    b.to_ascii_lowercase()
}

// Whether one of n bytes differs, but for ASCII case. There is no way out of the loop, so that with n a number in the call it is compiled
// to a few wide compares.
fn differ(a: &[u8], b: &[u8], at: usize, n: usize) -> bool
    requires { (at + n ≤ length a.now) × (at + n ≤ length b.now) }
    ensures { Compared a.now b.now at n result }
{
    let mut hit = false;
    for j in 0..n {
        hit |= lower(a[at + j]) != lower(b[at + j]);
    }
    hit
}

// Whether two bytes are equal but for ASCII case. Most are equal as they stand.
fn same_byte(x: u8, y: u8) -> bool
    ensures { result ≡ eqb (lower x) (lower y) }
{
    x == y || lower(x) == lower(y)
}

// Whether two short texts, such as a word and a name of a table, are equal but for ASCII case: one byte at a time.
pub fn same_word(a: &[u8], b: &[u8]) -> bool
    ensures { result ≡ alike a.now b.now }
{
    if a.len() != b.len() {
        return false;
    }
    for j in 0..a.len() {
        if !same_byte(a[j], b[j]) {
            return false;
        }
    }
    true
}

// Whether two texts are equal but for ASCII case: sixteen bytes at a time. The last sixteen may overlap those before them.
pub fn same_text(a: &[u8], b: &[u8]) -> bool
    ensures { result ≡ alike a.now b.now }
{
    let n = a.len();
    if n < 16 {
        return same_word(a, b);
    }
    if n != b.len() {
        return false;
    }
    let last = n - 16;
    for j in (0..last).step_by(16) {
        if differ(a, b, j, 16) {
            return false;
        }
    }
    !differ(a, b, last, 16)
}
