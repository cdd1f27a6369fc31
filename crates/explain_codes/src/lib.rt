// The bytes of a column's text, with the report's escaping undone (01, The report: bytes outside 33 to 126 and the percent sign become % and two
// upper-case hex digits).
//
// `split_first(s)` is the byte that comes next and what is behind all bytes that stand for it, or nothing at the end.
#![tactic(auto)]

ghost use Rattle.std.specs.Prelude.{◌≡◌, ◌+◌, ◌<◌, true, false, [], ◌∷◌, length, drop, IfNone, IfSome};
ghost use Rattle.explain_rules.specs.Texts.{is_code, code_byte, code_more, decoded};
ghost use Rattle.write_rules.specs.Entries.{is_hex, hex_value};

// The number of an upper-case hex digit, if the byte is one.
#[tactic(auto, unfolding(write_rules::specs::Entries::is_hex, write_rules::specs::Entries::hex_value, base_readers::specs::Texts::within))]
fn hex(b: u8) -> Option<u8>
    ensures none { IfNone result (is_hex b ≡ false) }
    ensures digit { IfSome result (λ _. is_hex b ≡ true) }
    ensures value { IfSome result (λ n. n ≡ hex_value b) }
    ensures small { IfSome result (λ n. n < 16) }
{
    match b {
        b'0'..=b'9' => Some(b - b'0'),
        b'A'..=b'F' => Some(b - b'A' + 10),
        _ => None,
    }
}

// The byte that a percent sign and two such digits stand for, if they come next.
#[tactic(auto, unfolding(explain_rules::specs::Texts::is_code, explain_rules::specs::Texts::code_byte))]
fn coded(s: &[u8]) -> Option<u8>
    ensures none { IfNone result (is_code s.now ≡ false) }
    ensures code { IfSome result (λ _. is_code s.now ≡ true) }
    ensures byte { IfSome result (λ b. b ≡ code_byte s.now) }
{
    if base_readers::byte(s, 0, 0) != b'%' {
        return None;
    }
    let h = hex(base_readers::byte(s, 0, 1))?;
    let l = hex(base_readers::byte(s, 0, 2))?;
    Some(h * 16 + l)
}

// The byte that comes next, and what is behind all bytes that stand for it; nothing at the end of the text.
pub fn split_first(s: &[u8]) -> Option<(u8, &[u8])>
    ensures none { IfNone result (s.now ≡ []) }
    ensures first { IfSome result (λ r. r.0 ≡ code_byte s.now) }
    ensures behind { IfSome result (λ r. r.1.now ≡ drop (1 + code_more s.now) s.now) }
    ensures text { IfSome result (λ r. decoded s.now ≡ r.0 ∷ decoded r.1.now) }
    ensures shorter { IfSome result (λ r. length r.1.now < length s.now) }
{
    if s.len() == 0 {
        return None;
    }
    match coded(s) {
        Some(b) => Some((b, &s[3..])),
        None => Some((s[0], &s[1..])),
    }
}
