// Whether two runs of bytes are the same, byte by byte.
ghost use Rattle.std.specs.Prelude.{◌≡◌};
ghost use Rattle.base_readers.specs.Texts.{same};

// Whether two texts are equal: of one length, with equal bytes at each place.
pub fn is_same(a: &[u8], b: &[u8]) -> bool
    ensures { result ≡ same a.now b.now }
{
    a == b
}
