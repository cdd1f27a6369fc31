// The parts of a result behind its method: reasons, and the labels of properties (RFC 8601: reasonspec, and propspec without its pvalue).
#![tactic(auto)]

ghost use Rattle.std.specs.Prelude.{◌≡◌, ◌+◌, drop};
ghost use Rattle.result_parts.specs.Parts.{reason_word, stated_as, reason_from, label_from};

use lexis_rules::Value;
use result_separators::{past, separator_end};

// Where the value of a reason stands: from `start` up to `end`, with its quotes where it is quoted.
#[derive(Drop)]
pub enum Reason {
    Stated {
        start: usize,
        end: usize,
        quoted: bool,
    },
    Absent,
}

// The end of the word reason, in any case. Most keywords start with another letter, and are not read.
fn reason_word_end(s: &[u8], at: usize) -> usize
    ensures { result ≡ at + reason_word (drop at s.now) }
{
    if text_compare::lower(base_readers::byte(s, at, 0)) != b'r' {
        return at;
    }
    let e = lexis_tokens::keyword_end(s, at);
    if e == at {
        return at;
    }
    if text_compare::same_text(&s[at..e], b"reason") {
        return e;
    }
    at
}

// A value is a reason as it stands.
fn stated_as(v: Value) -> Reason
    ensures { result ≡ stated_as v }
{
    match v {
        Value::Token { start, end } => Reason::Stated {
            start,
            end,
            quoted: false,
        },
        Value::Quoted { start, end } => Reason::Stated {
            start,
            end,
            quoted: true,
        },
        Value::Nothing => Reason::Absent,
    }
}

// The reason behind a result that ends at a place, where the space behind it ends at `word`.
pub fn reason_from(s: &[u8], at: usize, word: usize) -> Reason
    ensures { result ≡ reason_from s.now at word }
{
    if word == at {
        return Reason::Absent;
    }
    let word_end = reason_word_end(s, word);
    if word_end == word {
        return Reason::Absent;
    }
    let value = separator_end(s, word_end, b'=');
    if value == word_end {
        return Reason::Absent;
    }
    stated_as(lexis_tokens::value_at(s, value))
}

// A ptype from `type_start` up to `type_end`, a property from `name_start` up to `name_end`, and the place of the property value.
#[derive(Drop)]
pub struct Label {
    pub type_start: usize,
    pub type_end: usize,
    pub name_start: usize,
    pub name_end: usize,
    pub value: usize,
}

// What stands before a property value, behind a part that ends at a place, where the space behind it ends at `a`.
pub fn label_from(s: &[u8], at: usize, a: usize) -> Option<Label>
    ensures { result ≡ label_from s.now at a }
{
    let type_start = past(at, a)?;
    let type_end = past(type_start, lexis_tokens::keyword_end(s, type_start))?;
    let name_start = past(type_end, separator_end(s, type_end, b'.'))?;
    let name_end = past(name_start, lexis_tokens::keyword_end(s, name_start))?;
    let value = past(name_end, separator_end(s, name_end, b'='))?;
    Some(Label {
        type_start,
        type_end,
        name_start,
        name_end,
        value,
    })
}
