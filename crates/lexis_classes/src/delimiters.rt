// What has to follow an identifier and a header version: `delimited` answers whether it comes next at a place, any place, also past the end.
ghost use Rattle.std.specs.Prelude.{◌≡◌, drop};
ghost use Rattle.base_readers.specs.Texts.{follows};
ghost use Rattle.lexis_rules.specs.Bytes.{in_class};

use lexis_rules::Class;

// Whether the end, or one of space, tab, CR, "(" and ";", comes next.
pub fn delimited(s: &[u8], at: usize) -> bool
    ensures { result ≡ follows (in_class Class.Delimiter) (drop at s.now) }
{
    if at < s.len() {
        return super::in_class(Class::Delimiter, s[at]);
    }
    true
}
