// The structs that the functions for hosts return, and how they are made from answers.
//
// A struct is returned by value. On a refusal all but number and place are 0.
#![tactic(auto)]

ghost use Rattle.std.specs.Prelude.{◌≡◌};
ghost use Rattle.host_structs.specs.Faces.{next_face};
ghost use Rattle.host_structs.specs.Made.{marked_face, copied_face, reported_face, written_face};
ghost use Rattle.host_structs.specs.Version.{version_number};

use base_answers::Number;
use block_walk_rules::Step;
use report_rules::Reported;
use strip_rules::Stripped;
use strip_steps_rules::Marked;
use write_rules::Written;

pub mod judge;

// What `orbendash_mark` returns.
#[repr(C)]
#[derive(Drop)]
pub struct MarkFace {
    pub number: u8,
    pub place: usize,
    pub written: usize,
}

// What `orbendash_copy` returns.
#[repr(C)]
#[derive(Drop)]
pub struct CopyFace {
    pub number: u8,
    pub place: usize,
    pub kept: usize,
    pub removed: usize,
    pub fields: usize,
}

// What `orbendash_report` returns.
#[repr(C)]
#[derive(Drop)]
pub struct ReportFace {
    pub number: u8,
    pub place: usize,
    pub written: usize,
    pub ignored: usize,
}

// What `orbendash_write` returns.
#[repr(C)]
#[derive(Drop)]
pub struct WriteFace {
    pub number: u8,
    pub place: usize,
    pub written: usize,
}

// What `orbendash_next_field` returns. A field runs from `start` up to `end`, with its last CRLF; its name up to `name_end`, its body from `body_start` up to two before `end`.
#[repr(C)]
#[derive(Drop)]
pub struct NextFace {
    pub number: u8,
    pub found: u8,
    pub place: usize,
    pub start: usize,
    pub name_end: usize,
    pub body_start: usize,
    pub end: usize,
}

// What `strip::mark` answered.
impl From<Marked> for MarkFace {
    ghost from_gives = { λ m face. face ≡ marked_face m };

    fn from(m: Marked) -> MarkFace {
        MarkFace {
            number: m.number,
            place: m.place,
            written: m.written,
        }
    }
}

// What `strip::copy` answered.
impl From<Stripped> for CopyFace {
    ghost from_gives = { λ s face. face ≡ copied_face s };

    fn from(s: Stripped) -> CopyFace {
        CopyFace {
            number: s.number,
            place: s.place,
            kept: s.kept,
            removed: s.removed,
            fields: s.fields,
        }
    }
}

// What `report::report` answered.
impl From<Reported> for ReportFace {
    ghost from_gives = { λ a face. face ≡ reported_face a };

    fn from(a: Reported) -> ReportFace {
        ReportFace {
            number: a.number,
            place: a.place,
            written: a.written,
            ignored: a.ignored,
        }
    }
}

// What `write::write` answered.
impl From<Written> for WriteFace {
    ghost from_gives = { λ w face. face ≡ written_face w };

    fn from(w: Written) -> WriteFace {
        WriteFace {
            number: w.number,
            place: w.place,
            written: w.written,
        }
    }
}

// What `block_walk::field_from` answered: a field, or the last answer.
impl From<Step> for NextFace {
    ghost from_gives = { λ step face. face ≡ next_face step };

    fn from(step: Step) -> NextFace {
        match step {
            Step::Field {
                start,
                name_end,
                body_start,
                end,
            } => NextFace {
                number: Number::DONE,
                found: 1,
                place: 0,
                start,
                name_end,
                body_start,
                end,
            },
            Step::Last { number, place } => NextFace {
                number,
                found: 0,
                place,
                start: 0,
                name_end: 0,
                body_start: 0,
                end: 0,
            },
        }
    }
}

// The library's version as one number.
pub fn version() -> u32
    ensures { result ≡ version_number }
{
    100
}
