// The face for hosts: functions over the library's calls, with the same answers. `orbendash_c` exports each for C and for Rust.
//
// The structs that are returned, and how they are made from answers, are those of `host_structs` and `host_whose_struct`.
#![tactic(auto)]

ghost use Rattle.std.specs.Prelude.{◌≡◌, length};
ghost use Rattle.strip_rules.specs.Answers as copying;
ghost use Rattle.strip_steps_rules.specs.Steps.{mark, copy};
ghost use Rattle.strip_steps_rules.specs.Answers as marking;
ghost use Rattle.report_rules.specs.Report.{report};
ghost use Rattle.report_rules.specs.Answers as reporting;
ghost use Rattle.arc_rules.specs.Chain.{judge};
ghost use Rattle.block_walk_rules.specs.Steps.{step_from};
ghost use Rattle.write_rules.specs.Compose.{compose};
ghost use Rattle.write_rules.specs.Answers as writing;
ghost use Rattle.host_structs.specs.Faces.{mark_face, copy_face, report_face, write_face, next_face};
ghost use Rattle.host_structs.specs.JudgeFaces.{judge_face};
ghost use Rattle.host_whose_struct.specs.Whose.{whose};
ghost use Rattle.host_structs.specs.Version.{version_number};

use host_structs::judge::JudgeFace;
use host_structs::{CopyFace, MarkFace, NextFace, ReportFace, WriteFace};
use host_whose_struct::WhoseFace;

// Which fields of a block go, the Authentication-Results fields that speak in our own name or in none: a byte for each field (`strip::mark`).
pub fn orbendash_mark(s: &[u8], list: &[u8], out: &mut [u8]) -> MarkFace
    ensures value { result ≡ mark_face (mark s.now list.now (length out.old)) }
    ensures out_after { out.new ≡ marking.leaves (mark s.now list.now (length out.old)) out.old }
{
    strip::mark(s, list, out).into()
}

// The block without these fields, given that answer (`strip::copy`).
pub fn orbendash_copy(s: &[u8], list: &[u8], marks: &[u8], out: &mut [u8]) -> CopyFace
    ensures value { result ≡ copy_face (copy s.now list.now marks.now (length out.old)) }
    ensures out_after { out.new ≡ copying.leaves (copy s.now list.now marks.now (length out.old)) out.old }
{
    strip::copy(s, list, marks, out).into()
}

// The report of a field body (`report::report`).
pub fn orbendash_report(body: &[u8], out: &mut [u8]) -> ReportFace
    ensures value { result ≡ report_face (report body.now (length out.old)) }
    ensures out_after { out.new ≡ reporting.leaves (report body.now (length out.old)) out.old }
{
    report::report(body, out).into()
}

// The body that report lines say (`write::write`).
pub fn orbendash_write(lines: &[u8], out: &mut [u8]) -> WriteFace
    ensures value { result ≡ write_face (compose lines.now (length out.old)) }
    ensures out_after { out.new ≡ writing.leaves (compose lines.now (length out.old)) out.old }
{
    write::write(lines, out).into()
}

// Whether the ARC chain of a block is built, and what it says by the verdicts (`arc::judge`).
pub fn orbendash_judge(s: &[u8], verdicts: &[u8]) -> JudgeFace
    ensures { result ≡ judge_face (judge s.now verdicts.now) }
{
    arc::judge(s, verdicts).into()
}

// A step of the walking reader from a place: a field, or the last answer (`block_walk::field_from`).
pub fn orbendash_next_field(s: &[u8], place: usize) -> NextFace
    ensures { result ≡ next_face (step_from s.now place) }
{
    block_walk::field_from(s, place).into()
}

// Whose the identifier of a field body is: ours, another's, or unreadable (`host_whose::whose`). 1 where the body is too long, then 5 where the list is bad.
pub fn orbendash_whose(list: &[u8], body: &[u8]) -> WhoseFace
    ensures { result ≡ whose list.now body.now }
{
    host_whose::whose(list, body)
}

// The library's version as one number; that of the header it was built with is ORBENDASH_VERSION_NUMBER.
pub fn orbendash_version() -> u32
    ensures { result ≡ version_number }
{
    host_structs::version()
}
