// Property values (RFC 8601: pvalue): a token, a quoted string, a mailbox or an at-domain.
//
// A reader is handed a slice and a place, any place, also past the end. Where no property value starts there, or the one that starts is
// bad, the answer is none: there is nothing else to try, and the body is not well-formed (number 9). Each byte is looked at a bounded
// number of times.
#![tactic(auto)]

ghost use Rattle.std.specs.Prelude.{◌≡◌, true, ◌+◌, ◌≤◌, ◌<◌, length};
ghost use Rattle.result_values.specs.Values.{mailbox_at, at_domain_at, address_at, quoted_at, value_at};

pub mod domains;

// Where a property value stands: from `start` up to `end`. `sign` is the place of the "@" of a mailbox; `quoted` says that its local part
// is a quoted string. An at-domain starts with its "@".
#[derive(Drop)]
pub enum Value {
    Token {
        start: usize,
        end: usize,
    },
    Quoted {
        start: usize,
        end: usize,
    },
    Mailbox {
        start: usize,
        sign: usize,
        end: usize,
        quoted: bool,
    },
    AtDomain {
        start: usize,
        end: usize,
    },
}

// A property value that was read, with the place after it.
#[derive(Drop)]
pub struct Found {
    pub value: Value,
    pub end: usize,
}

// The mailbox whose local part starts at a place and whose "@" is at another.
fn mailbox_at(s: &[u8], start: usize, sign: usize, quoted: bool) -> Option<Found>
    requires { sign < length s.now }
    ensures { result ≡ mailbox_at s.now start sign quoted }
{
    let e = domains::domain_end(s, sign + 1);
    if e == sign + 1 {
        return None;
    }
    Some(Found {
        value: Value::Mailbox {
            start,
            sign,
            end: e,
            quoted,
        },
        end: e,
    })
}

// The at-domain whose "@" is at a place.
fn at_domain_at(s: &[u8], sign: usize) -> Option<Found>
    requires { sign < length s.now }
    ensures { result ≡ at_domain_at s.now sign }
{
    let e = domains::domain_end(s, sign + 1);
    if e == sign + 1 {
        return None;
    }
    Some(Found {
        value: Value::AtDomain {
            start: sign,
            end: e,
        },
        end: e,
    })
}

// The address of a run of bytes of a local part, which may be empty, and the "@" behind it.
fn address_at(s: &[u8], at: usize, sign: usize) -> Option<Found>
    requires { (at ≤ sign) × (sign < length s.now) }
    ensures { result ≡ address_at s.now at sign }
{
    if sign == at {
        return at_domain_at(s, sign);
    }
    if domains::has_single_dots(&s[at..sign]) {
        return mailbox_at(s, at, sign, false);
    }
    None
}

// The quoted string at a place, or the mailbox that it starts.
fn quoted_at(s: &[u8], at: usize) -> Option<Found>
    ensures { result ≡ quoted_at s.now at }
{
    let e = lexis_tokens::quoted_end(s, at);
    if e == at {
        return None;
    }
    if base_readers::is_at(s, e, 0, b'@') {
        return mailbox_at(s, at, e, true);
    }
    Some(Found {
        value: Value::Quoted { start: at, end: e },
        end: e,
    })
}

// The property value at a place. The bytes of a token may all stand in a local part, so the local part goes on where the token ends.
pub fn value_at(s: &[u8], at: usize) -> Option<Found>
    ensures { result ≡ value_at s.now at }
{
    let e = lexis_tokens::token_end(s, at);
    let sign = domains::local_end(s, e);
    if base_readers::is_at(s, sign, 0, b'@') {
        return address_at(s, at, sign);
    }
    if base_readers::is_at(s, at, 0, b'"') {
        return quoted_at(s, at);
    }
    if e == at {
        return None;
    }
    Some(Found {
        value: Value::Token { start: at, end: e },
        end: e,
    })
}
