// Separators: the bytes between the parts of a result (";", "/", "=", "."), with the space on both sides of them.
//
// A reader is handed a slice and a place, any place, also past the end. It answers the place after the separator and its space, and the place
// itself where there is none.
#![tactic(auto)]

ghost use Rattle.std.specs.Prelude.{◌≡◌, ◌≢◌, ◌+◌, drop, MatchOption};
ghost use Rattle.result_rules.specs.Results.{next};
ghost use Rattle.result_separators.specs.Separators.{separated, separated_from};

// Whether a byte comes next. At the end none does.
fn comes_next(s: &[u8], at: usize, b: u8) -> bool
    ensures { result ≡ next b (drop at s.now) }
{
    at < s.len() && s[at] == b
}

// The place behind what was taken at a place, if anything was: where nothing is taken both are the same.
pub fn past(at: usize, end: usize) -> Option<usize>
    ensures { MatchOption result (end ≡ at) (λ e. (e ≡ end) × (e ≢ at)) }
{
    if end == at {
        return None;
    }
    Some(end)
}

// The place after a byte between parts, with the space on both sides of it, and the place itself where there is no such byte.
pub fn separator_end(s: &[u8], at: usize, b: u8) -> usize
    ensures { result ≡ at + separated b (drop at s.now) }
{
    separator_from(s, at, lexis_space::space_end(s, at), b)
}

// The place after a byte between parts, with the space behind it, where the space before it ends at `a`; `at` where there is no such byte.
pub fn separator_from(s: &[u8], at: usize, a: usize, b: u8) -> usize
    ensures { result ≡ separated_from b s.now at a }
{
    if comes_next(s, a, b) {
        return lexis_space::space_end(s, a + 1);
    }
    at
}
