// The fields of a header block, one at a time.
//
// `next_field` answers what stands at a place of a walk: a field, by four places; the end; or a refusal, with its number and place:
//   2  a CR without LF, an LF without CR, or a last line without CRLF: that byte; for an unfinished line the block length
//   3  an empty line, a first line starting with space or tab, or a field that lacks name or colon: the start of the line
//   4  a 513th field: its start
// A block of more than 65,536 bytes is the caller's to refuse (`lexis_limits::too_long`).
#![tactic(auto)]

ghost use Rattle.std.specs.Prelude.{◌≡◌, ◌+◌, drop};
ghost use Rattle.lexis_rules.specs.declared.Class.TheVariants.{Name};
ghost use Rattle.lexis_rules.specs.Bytes.{in_class};
ghost use Rattle.block_rules.specs.Fields.{name, name_colon};
ghost use Rattle.block.specs.Steps.{fresh_walk, next_at, finished};

use base_answers::Number;
use base_runs::ByteTest;
use lexis_rules::Class;

// Where a walk over a block stands, and how many fields it has passed.
#[derive(Clone, Copy)]
pub struct Walk {
    pub at: usize,
    pub count: usize,
}

impl Walk {
    // The most fields that a block may have.
    pub const FIELDS: usize = 512;

    // A walk from the front.
    pub fn fresh() -> Walk
        ensures { result ≡ fresh_walk }
    {
        Walk { at: 0, count: 0 }
    }
}

// What stands at a place of a walk. It is no `Result` with an error enum: `next_field` keeps its answers, whose numbers are those of document 01 and
// of the C interface. A field runs from `start` up to `end`, its last CRLF included; its name from `start` up to
// `name_end`, its body from `body_start` up to two before `end`.
#[derive(Drop)]
pub enum Next {
    Field {
        start: usize,
        name_end: usize,
        body_start: usize,
        end: usize,
    },
    End,
    Refused {
        number: u8,
        place: usize,
    },
}

// The bytes of a name.
#[derive(Drop)]
struct InName;

impl ByteTest for InName {
    ghost passes = { λ t. in_class Name };

    // All from 33 to 126 but colon.
    fn passes(&self, b: u8) -> bool {
        match b {
            b'!'..=b'~' => b != b':',
            _ => false,
        }
    }
}

// The place after the colon, where the name ends at n: the place itself where name or colon lacks.
fn label_end(s: &[u8], at: usize, n: usize) -> usize
    requires { n ≡ at + name (drop at s.now) }
    ensures { result ≡ at + name_colon (drop at s.now) }
{
    if n == at {
        return at;
    }
    let e = lexis_classes::run_end(s, n, Class::Blank);
    if base_readers::is_at(s, e, 0, b':') {
        return e + 1;
    }
    at
}

// The field whose first line ends at l, its name at n and its label at b.
fn finish(s: &[u8], at: usize, l: usize, n: usize, b: usize) -> Next
    ensures { result ≡ finished at l n b s.now }
{
    let e = block_lines::folds_end(s, l);
    if block_lines::blank_at(s, e) {
        return Next::Refused {
            number: Number::LINE_END,
            place: block_lines::line_text(s, e),
        };
    }
    Next::Field {
        start: at,
        name_end: n,
        body_start: b,
        end: e,
    }
}

// What stands at a place of a walk, line by line: this tells which refusal it is.
fn next_by_lines(s: &[u8], w: Walk) -> Next
    ensures { result ≡ next_at s.now w }
{
    let at = w.at;
    let count = w.count;
    if s.len() <= at {
        return Next::End;
    }
    let l = block_lines::line_end(s, at);
    if l == at {
        return Next::Refused {
            number: Number::LINE_END,
            place: block_lines::line_text(s, at),
        };
    }
    let n = InName.run_end(s, at);
    let b = label_end(s, at, n);
    if b == at {
        return Next::Refused {
            number: Number::NO_FIELD,
            place: at,
        };
    }
    if count >= Walk::FIELDS {
        return Next::Refused {
            number: Number::TOO_MANY_FIELDS,
            place: at,
        };
    }
    finish(s, at, l, n, b)
}

// What stands at a place of a walk. A field whose lines are all whole is found without a look at each of them.
pub fn next_field(s: &[u8], w: Walk) -> Next
    ensures { result ≡ next_at s.now w }
{
    let at = w.at;
    let count = w.count;
    let e = block_field_ends::whole_end(s, at);
    if e == at {
        return next_by_lines(s, w);
    }
    let n = InName.run_end(s, at);
    let b = label_end(s, at, n);
    if b == at {
        return Next::Refused {
            number: Number::NO_FIELD,
            place: at,
        };
    }
    if Walk::FIELDS <= count {
        return Next::Refused {
            number: Number::TOO_MANY_FIELDS,
            place: at,
        };
    }
    Next::Field {
        start: at,
        name_end: n,
        body_start: b,
        end: e,
    }
}
