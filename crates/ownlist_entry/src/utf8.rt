// The byte sequences of UTF-8 from 128 up (RFC 3629, section 4).
ghost use Rattle.std.specs.Prelude.{◌≡◌, ◌≢◌, ◌||◌, leb, get_or, drop, MatchOption};
ghost use Rattle.base_readers.specs.Texts.{within};
ghost use Rattle.ownlist_rules.specs.Utf8.{lead, second, sequence};

// Whether a byte is from a to b.
fn is_from(a: u8, b: u8, x: u8) -> bool
    ensures { result ≡ within a b x }
{
    if x < a {
        return false;
    }
    x <= b
}

// How many bytes a sequence has that starts with a byte, if one does.
fn lead(a: u8) -> Option<usize>
    ensures { MatchOption result (lead a ≡ 0) (λ n. (n ≡ lead a) × (n ≢ 0)) }
{
    if is_from(0xC2, 0xDF, a) {
        return Some(2);
    }
    if is_from(0xE0, 0xEF, a) {
        return Some(3);
    }
    if is_from(0xF0, 0xF4, a) {
        return Some(4);
    }
    None
}

// Whether b may stand behind the first byte a.
fn is_second(a: u8, b: u8) -> bool
    ensures { result ≡ second a b }
{
    if a == 0xE0 {
        return is_from(0xA0, 0xBF, b);
    }
    if a == 0xED {
        return is_from(0x80, 0x9F, b);
    }
    if a == 0xF0 {
        return is_from(0x90, 0xBF, b);
    }
    if a == 0xF4 {
        return is_from(0x80, 0x8F, b);
    }
    is_from(0x80, 0xBF, b)
}

// Whether byte k of a sequence of n bytes is a tail, or there is none.
fn is_further(s: &[u8], at: usize, n: usize, k: usize) -> bool
    ensures { result ≡ (leb n k || within 0x80 0xBF (get_or (drop at s.now) k 0)) }
{
    if n <= k {
        return true;
    }
    is_from(0x80, 0xBF, base_readers::byte(s, at, k))
}

// How many bytes the sequence at a place has, if one stands there.
pub fn sequence_at(s: &[u8], at: usize) -> Option<usize>
    ensures { MatchOption result (sequence (drop at s.now) ≡ 0) (λ n. (n ≡ sequence (drop at s.now)) × (n ≢ 0)) }
{
    let a = base_readers::byte(s, at, 0);
    let n = lead(a)?;
    if is_second(a, base_readers::byte(s, at, 1)) {
        if is_further(s, at, n, 2) {
            if is_further(s, at, n, 3) {
                return Some(n);
            }
        }
    }
    None
}
