// The identifier at the front of a field body (RFC 8601: authserv-id).
//
// Where the identifier can't be read nothing further is tried: that is number 7 where a report is asked for, and the field goes where a
// block is stripped.
#![tactic(auto)]

ghost use Rattle.std.specs.Prelude.{◌≡◌, ◌+◌, drop};
ghost use Rattle.identifier_rules.specs.Identifier.{identifier_byte, identifier_token};
ghost use Rattle.identifier.specs.Answers.{readable, identifier_at};

use base_runs::ByteTest;
use lexis_rules::Class;

pub mod version;

// Where an identifier stands: from `start` up to `end`, with its quotes where it is quoted.
// No Option: document 01 wants an enum here, which is taken apart by `let .. else`.
#[derive(Drop)]
pub enum Identifier {
    Readable {
        start: usize,
        end: usize,
        quoted: bool,
    },
    Unreadable,
}

// Whether a byte may stand in the token of an identifier.
pub fn in_identifier(b: u8) -> bool
    ensures { result ≡ identifier_byte b }
{
    if b >= 128 {
        return true;
    }
    lexis_classes::in_class(Class::Token, b)
}

// The bytes of the token of an identifier.
#[derive(Drop)]
struct IdentifierByte;

impl ByteTest for IdentifierByte {
    ghost passes = { λ t. identifier_byte };

    fn passes(&self, b: u8) -> bool {
        in_identifier(b)
    }
}

// The end of the token of an identifier; one of ASCII alone ends where any token does.
fn identifier_token_end(s: &[u8], at: usize) -> usize
    ensures { result ≡ at + identifier_token (drop at s.now) }
{
    let e = lexis_tokens::token_end(s, at);
    if base_readers::byte(s, e, 0) < 128 {
        return e;
    }
    IdentifierByte.run_end(s, e)
}

// The value from a up to e, if there is one and it is delimited.
fn readable(s: &[u8], a: usize, e: usize, quoted: bool) -> Identifier
    ensures { result ≡ readable s.now a e quoted }
{
    if e == a {
        return Identifier::Unreadable;
    }
    if lexis_classes::delimiters::delimited(s, e) {
        return Identifier::Readable {
            start: a,
            end: e,
            quoted,
        };
    }
    Identifier::Unreadable
}

// The identifier of a body.
pub fn identify(body: &[u8]) -> Identifier
    ensures { result ≡ identifier_at body.now }
{
    let a = lexis_space::wide_space_end(body, 0);
    if base_readers::is_at(body, a, 0, b'"') {
        return readable(body, a, lexis_tokens::quoted_end(body, a), true);
    }
    readable(body, a, identifier_token_end(body, a), false)
}
