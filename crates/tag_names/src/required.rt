// Whether the names of tags, each by the place of its first byte in a body, are those that a signature or a seal needs.
//
//   is_signature(s, places)      whether the names at these places are those that a signature needs
//   is_seal(s, places, cv)       the same for a seal, with the chain value of its cv
ghost use Rattle.std.specs.Prelude.{◌≡◌};
ghost use Rattle.tag_rules.specs.Needed.{signature_tags, seal_tags};
ghost use Rattle.tag_names.specs.Names.{held_at, all_at, seal_at};

// Whether a name stands at one of these places.
fn has(s: &[u8], places: &[u16], name: &[u8]) -> bool
    ensures { result ≡ held_at s.now places.now name.now }
{
    places
        .iter()
        .any(|place| super::is_named(s, usize::from(*place), name))
}

// Whether the names at these places are those that a signature needs.
pub fn is_signature(s: &[u8], places: &[u16]) -> bool
    ensures { result ≡ all_at s.now places.now signature_tags }
{
    if !has(s, places, b"a") {
        return false;
    }
    if !has(s, places, b"b") {
        return false;
    }
    if !has(s, places, b"bh") {
        return false;
    }
    if !has(s, places, b"d") {
        return false;
    }
    if !has(s, places, b"h") {
        return false;
    }
    has(s, places, b"s")
}

// Whether the names at these places are those that a seal needs, h aside.
fn has_seal_tags(s: &[u8], places: &[u16]) -> bool
    ensures { result ≡ all_at s.now places.now seal_tags }
{
    if !has(s, places, b"a") {
        return false;
    }
    if !has(s, places, b"b") {
        return false;
    }
    if !has(s, places, b"d") {
        return false;
    }
    if !has(s, places, b"s") {
        return false;
    }
    has(s, places, b"cv")
}

// Whether the names at these places are those that a seal needs and not h, and the chain value is one.
pub fn is_seal(s: &[u8], places: &[u16], cv: u8) -> bool
    ensures { result ≡ seal_at s.now places.now cv }
{
    if cv == 0 {
        return false;
    }
    if has(s, places, b"h") {
        return false;
    }
    has_seal_tags(s, places)
}
