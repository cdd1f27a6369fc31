// How many bytes a block or a field body may have, handed in or to be written: answer 1 (01, What the library is handed).
#![tactic(auto)]

ghost use Rattle.std.specs.Prelude.{◌≡◌, ltb, length};
ghost use Rattle.lexis_rules.specs.Limits.{byte_limit};
ghost use Rattle.lexis_limits.specs.Sizes.{size_of};

// How many bytes a block or a field body has: document 01 names this form, a type that has its limit as a constant.
#[derive(Drop)]
pub struct Size {
    pub bytes: usize,
}

impl Size {
    // The most bytes that a block or a field body may have.
    pub const MOST: usize = 65536;

    // That of a text that is there.
    pub fn of(s: &[u8]) -> Size
        ensures { result ≡ size_of (length s.now) }
    {
        Size { bytes: s.len() }
    }
}

// Whether a block or a field body is over the limit.
pub fn too_long(s: &[u8]) -> bool
    ensures { result ≡ ltb byte_limit (length s.now) }
{
    let size = Size::of(s);
    Size::MOST < size.bytes
}
