// Parts of a text by places.
//
// `part(s, a, e)` is the bytes from a up to e, any places: of what would stand past the end there is nothing. `places` keeps places in an array.
#![tactic(auto)]

ghost use Rattle.std.specs.Prelude.{◌≡◌};
ghost use Rattle.base_sequences.specs.Spans.{span};

pub mod places;

// The bytes from a up to e, as far as they stand inside.
pub fn part(s: &[u8], a: usize, e: usize) -> &[u8]
    ensures { result.now ≡ span s.now a e }
{
    s.get(a..e.min(s.len())).unwrap_or(&[])
}
