// A method, its version and its result (RFC 8601: methodspec), read at a place.
#![tactic(auto)]

ghost use Rattle.std.specs.Prelude.{◌≡◌};
ghost use Rattle.result_method.specs.Methods.{method_version_at, method_at};

use lexis_rules::VersionNumber;

// The version of a method: the place after it, where the space behind that ends, and its number.
#[derive(Drop)]
struct MethodVersion {
    end: usize,
    gap: usize,
    number: VersionNumber,
}

// The version of a method that ends at a place. Where "/" and a digit run can't be read nothing is taken, and absent means 1.
fn method_version_at(s: &[u8], at: usize) -> MethodVersion
    ensures { result ≡ method_version_at s.now at }
{
    let gap = lexis_space::space_end(s, at);
    let a = result_separators::separator_from(s, at, gap, b'/');
    if a == at {
        return MethodVersion {
            end: at,
            gap,
            number: VersionNumber::Exact { number: 1 },
        };
    }
    let d = lexis_digits::digits_at(s, a);
    if d.end == a {
        return MethodVersion {
            end: at,
            gap,
            number: VersionNumber::Exact { number: 1 },
        };
    }
    let number = d.number;
    MethodVersion {
        end: d.end,
        gap: lexis_space::space_end(s, d.end),
        number,
    }
}

// A method from `start` up to `end`, the number of its version, and its result from `result_start` up to `result_end`.
#[derive(Drop)]
pub enum Method {
    Read {
        start: usize,
        end: usize,
        version: VersionNumber,
        result_start: usize,
        result_end: usize,
    },
    Missing,
}

// The method, its version and its result at a place.
pub fn method_at(s: &[u8], at: usize) -> Method
    ensures { result ≡ method_at s.now at }
{
    let end = lexis_tokens::keyword_end(s, at);
    if end == at {
        return Method::Missing;
    }
    let versioned = method_version_at(s, end);
    let result_start = result_separators::separator_from(s, versioned.end, versioned.gap, b'=');
    if result_start == versioned.end {
        return Method::Missing;
    }
    let result_end = lexis_tokens::keyword_end(s, result_start);
    if result_end == result_start {
        return Method::Missing;
    }
    let version = versioned.number;
    Method::Read {
        start: at,
        end,
        version,
        result_start,
        result_end,
    }
}
