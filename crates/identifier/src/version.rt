// The header version behind an identifier.
ghost use Rattle.std.specs.Prelude.{◌≡◌};
ghost use Rattle.identifier.specs.VersionAnswers.{version_at};

use lexis_rules::VersionNumber;

// The header version: the digits that count from `start` up to `end`, and their number. Absent means 1.
#[derive(Drop)]
pub enum Version {
    Absent,
    Stated {
        start: usize,
        end: usize,
        number: VersionNumber,
    },
}

// The header version behind an identifier that ends at a place.
pub fn version_at(s: &[u8], at: usize) -> Version
    ensures { result ≡ version_at s.now at }
{
    let a = lexis_space::space_end(s, at);
    if a == at {
        return Version::Absent;
    }
    let d = lexis_digits::digits_at(s, a);
    if d.end == a {
        return Version::Absent;
    }
    let number = d.number;
    Version::Stated {
        start: d.start,
        end: d.end,
        number,
    }
}
