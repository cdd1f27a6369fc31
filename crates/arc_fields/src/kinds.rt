// Which kind of ARC field a name is.
ghost use Rattle.std.specs.Prelude.{◌≡◌};
ghost use Rattle.arc_rules.specs.Sets.{kind_named};

use arc_rules::Kind;

// Which ARC field a name is, without regard to ASCII case.
pub fn kind_of(name: &[u8]) -> Kind
    ensures { result ≡ kind_named name.now }
{
    if text_compare::same_text(name, b"ARC-Authentication-Results") {
        return Kind::Results;
    }
    if text_compare::same_text(name, b"ARC-Message-Signature") {
        return Kind::Signature;
    }
    if text_compare::same_text(name, b"ARC-Seal") {
        return Kind::Seal;
    }
    Kind::Other
}
