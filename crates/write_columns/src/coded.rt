// Coded texts, and the words in front of them (02, ticket [1]; 01, The report: bytes outside 33 to 126 and "%" are a percent sign and two
// upper-case hex digits).
//
//   code_at(s, at)           the byte of a text at a place, if there is one, and how many bytes it takes there
//   is_each(s, at, t)        whether every byte of the text at a place is of some
//   is_bare(s, at, t)        whether the text at a place may be written bare
//   text_at(s, at, t)        the text at a place: its end, whether a quoted string can hold it, whether it may be written bare
//   text_line(s, at, t)      the place after the LF behind a text that can stand, if there is one; whether the text may be written bare
//   is_literal(s, at, w)     whether these bytes stand at a place
ghost use Rattle.std.specs.Prelude.{◌≡◌, drop};
ghost use Rattle.base_readers.specs.Readers.{run};
ghost use Rattle.report_rules.specs.Report.{plain};
ghost use Rattle.write_rules.specs.Entries.{each, whole, hex_or};
ghost use Rattle.write_columns.specs.Internal.{code_at, text_of, in_test, text_at, tail_at, spells};

use lexis_rules::Class;

// Whether a byte stands for itself in a text.
fn is_plain(b: u8) -> bool
    ensures { result ≡ plain b }
{
    if b == b'%' {
        return false;
    }
    lexis_classes::in_class(Class::Visible, b)
}

// The number of an upper-case hex digit; 16 for any other byte.
fn hex(b: u8) -> u8
    ensures { result ≡ hex_or b }
{
    if b < b'0' {
        return 16;
    }
    if b <= b'9' {
        return b - b'0';
    }
    if b < b'A' {
        return 16;
    }
    if b <= b'F' {
        return b - 55;
    }
    16
}

// A byte of a text: how many bytes the report writes for it, and what it is.
#[derive(Clone, Copy)]
pub struct Code {
    pub size: usize,
    pub value: u8,
}

// The byte of a text at a place, if there is one: itself, or a percent sign and two hex digits where it may not stand itself.
#[inline(always)]
pub fn code_at(s: &[u8], at: usize) -> Option<Code>
    ensures { result ≡ code_at (drop at s.now) }
{
    let b = base_readers::byte(s, at, 0);
    if is_plain(b) {
        return Some(Code { size: 1, value: b });
    }
    if b != b'%' {
        return None;
    }
    let h = hex(base_readers::byte(s, at, 1));
    if h > 15 {
        return None;
    }
    let l = hex(base_readers::byte(s, at, 2));
    if l > 15 {
        return None;
    }
    if is_plain(h * 16 + l) {
        return None;
    }
    Some(Code {
        size: 3,
        value: h * 16 + l,
    })
}

// What the bytes of a text may have to be of: those that a quoted string can hold, or those that stand bare in a token, in an identifier
// and in a local part.
#[derive(Clone, Copy)]
pub enum Test {
    Text,
    Token,
    Identifier,
    Local,
}

// Whether a byte is of these.
fn in_test(t: Test, b: u8) -> bool
    ensures { result ≡ in_test t b }
{
    match t {
        Test::Text => {
            if lexis_classes::in_class(Class::Quoted, b) {
                return true;
            }
            lexis_classes::in_class(Class::Escaped, b)
        }
        Test::Token => lexis_classes::in_class(Class::Token, b),
        Test::Identifier => identifier::in_identifier(b),
        Test::Local => result_values::domains::in_local_part(b),
    }
}

// Whether every byte of the text at a place is of these.
pub fn is_each(s: &[u8], at: usize, t: Test) -> bool
    ensures { result ≡ each (in_test t) (text_of (drop at s.now)) }
{
    let mut i = at;
    while let Some(c) = code_at(s, i) {
        if !in_test(t, c.value) {
            return false;
        }
        i += c.size;
    }
    true
}

// Whether the text at a place may be written bare: it isn't empty, and every byte is of these.
pub fn is_bare(s: &[u8], at: usize, t: Test) -> bool
    ensures { result ≡ whole (run (in_test t)) (text_of (drop at s.now)) }
{
    code_at(s, at).is_some() && is_each(s, at, t)
}

// A text: the place where it ends, whether a quoted string can hold it, and whether it may be written bare. No flag excludes the place, so there is no Option.
#[derive(Clone, Copy)]
pub struct Text {
    pub end: usize,
    pub holds: bool,
    pub bare: bool,
}

// The text at a place, walked once.
pub fn text_at(s: &[u8], at: usize, t: Test) -> Text
    ensures { result ≡ text_at t s.now at }
{
    let mut i = at;
    let mut holds = true;
    let mut bare = code_at(s, at).is_some();
    while let Some(c) = code_at(s, i) {
        holds = holds & in_test(Test::Text, c.value);
        bare = bare & in_test(t, c.value);
        i += c.size;
    }
    Text {
        end: i,
        holds,
        bare,
    }
}

// The end of a line that a text closes, if one ends there, and whether the text may be written bare, which is told of any text.
#[derive(Clone, Copy)]
pub struct Tail {
    pub end: Option<usize>,
    pub bare: bool,
}

// The place after the LF behind a text that can stand, if there is one, and whether the text may be written bare.
pub fn text_line(s: &[u8], at: usize, t: Test) -> Tail
    ensures { result ≡ tail_at t s.now at }
{
    let x = text_at(s, at, t);
    let bare = x.bare;
    if base_readers::is_at(s, x.end, 0, b'\n') {
        if x.holds {
            let end = Some(x.end + 1);
            return Tail { end, bare };
        }
    }
    Tail { end: None, bare }
}

// Whether these bytes stand at a place.
pub fn is_literal(s: &[u8], at: usize, w: &[u8]) -> bool
    ensures { result ≡ spells w.now (drop at s.now) }
{
    for (j, b) in w.iter().enumerate() {
        if base_readers::byte(s, at, j) != *b {
            return false;
        }
    }
    true
}
