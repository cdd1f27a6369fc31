// Tokens, quoted strings, values and keywords.
//
// A reader is handed a slice and a place, any place, also past the end. It answers the place after the piece that starts there, and
// the place itself where there is none.
#![tactic(auto)]

ghost use Rattle.std.specs.Prelude.{◌≡◌, ◌+◌, ◌-◌, drop};
ghost use Rattle.lexis_rules.specs.Pieces.{token, quoted, keyword};
ghost use Rattle.lexis_rules.specs.Answers.{value_at};

use lexis_rules::{Class, Value};

// The end of a token.
pub fn token_end(s: &[u8], at: usize) -> usize
    ensures { result ≡ at + token (drop at s.now) }
{
    lexis_table::run_end(s, at, Class::Token)
}

// The end of a quoted string.
pub fn quoted_end(s: &[u8], at: usize) -> usize
    ensures { result ≡ at + quoted (drop at s.now) }
{
    if base_readers::is_at(s, at, 0, b'"') {
        let e = lexis_classes::items_end(s, at + 1, Class::Quoted);
        if base_readers::is_at(s, e, 0, b'"') {
            return e + 1;
        }
    }
    at
}

// The value at a place.
pub fn value_at(s: &[u8], at: usize) -> Value
    ensures { result ≡ value_at s.now at }
{
    if base_readers::is_at(s, at, 0, b'"') {
        let e = quoted_end(s, at);
        if e == at {
            return Value::Nothing;
        }
        return Value::Quoted { start: at, end: e };
    }
    let e = token_end(s, at);
    if e == at {
        return Value::Nothing;
    }
    Value::Token { start: at, end: e }
}

// The end of a keyword.
pub fn keyword_end(s: &[u8], at: usize) -> usize
    ensures { result ≡ at + keyword (drop at s.now) }
{
    let e = lexis_table::run_end(s, at, Class::Keyword);
    if e == at {
        return at;
    }
    if base_readers::is_at(s, e - 1, 0, b'-') {
        return at;
    }
    e
}
