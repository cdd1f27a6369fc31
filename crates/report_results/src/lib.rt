// One result of a field body: read, and its lines of the report written in one go.
//
// `put_result(s, at, out, to)` is handed the place behind a ";" and the space after it, any place. Where a result stands there, it stores as much of the result's lines as
// there is room for in `out` from `to` on, and answers where the result and the space behind it end, the place after the whole lines, at most the largest place, which no
// buffer reaches, and whether the result is understood: only then its lines may stay. Where none stands there nothing is written. No other byte of `out` is changed.
//
// The space behind each part is read once: with the place where a part ends (`at`, `end`) goes the place where the space behind it ends
// (`gap`).
#![tactic(auto)]

ghost use Rattle.std.specs.Prelude.{◌≡◌};
ghost use Rattle.std.proofs.lemmas.List.Edits.{sets};
ghost use Rattle.base_sequences.specs.Spans.{span};
ghost use Rattle.result_separators.specs.Separators.{spaced};
ghost use Rattle.report_results.specs.Internal.{knows_type, knows_method, PropertiesPut, ReasonPut, DetailsPut};
ghost use Rattle.report_results.specs.Turns.{turn_at, lines_at};

use lexis_rules::VersionNumber;
use result_method::Method;
use result_parts::Reason;
use result_steps::Step;

// What was read and written: the place after it in the body, with its space, and the place after its text, and whether all of its ptypes
// are known; it excludes neither place, so there is no Option.
#[derive(Clone, Copy)]
struct Details {
    end: usize,
    gap: usize,
    next: usize,
    known: bool,
}

// Whether all ptypes so far are known, and the one between two places too.
fn knows_ptype(known: bool, s: &[u8], start: usize, end: usize) -> bool
    ensures { result ≡ knows_type known (span s.now start end) }
{
    if known {
        return result_table::is_ptype(text_parts::part(s, start, end));
    }
    false
}

// Whether the version of the method between two places is understood, and its result, between two others, stands in its row.
fn knows_method(
    version: VersionNumber,
    s: &[u8],
    start: usize,
    end: usize,
    result_start: usize,
    result_end: usize,
) -> bool
    ensures { result ≡ knows_method version (span s.now start end) (span s.now result_start result_end) }
{
    if lexis_digits::is_one(version) {
        return result_table::is_tabled(
            text_parts::part(s, start, end),
            text_parts::part(s, result_start, result_end),
        );
    }
    false
}

// The properties behind a method or a reason that ends at a place, with their lines. Where the next one starts is told by the one before, so there is no
// range to go over.
fn put_properties(s: &[u8], at: usize, gap: usize, out: &mut [u8], to: usize) -> Details
    requires { gap ≡ spaced s.now at }
    ensures { PropertiesPut s.now at out.old to out.new result }
{
    let mut i = at;
    let mut a = gap;
    let mut n = to;
    let mut known = true;
    loop {
        let Step::Property {
            type_start,
            type_end,
            name_start,
            name_end,
            value,
            end,
        } = result_steps::step_from(s, i, a)
        else {
            return Details {
                end: i,
                gap: a,
                next: n,
                known,
            };
        };
        known = knows_ptype(known, s, type_start, type_end);
        n = report_lines::put_property(
            s, type_start, type_end, name_start, name_end, value, out, n,
        );
        a = lexis_space::space_end(s, end);
        i = end;
    }
}

// The places after a reason, with its space, and after its line.
#[derive(Clone, Copy)]
struct Stated {
    end: usize,
    gap: usize,
    next: usize,
}

// The reason behind a result that ends at a place, if there is one, with its line.
fn put_reason(s: &[u8], at: usize, out: &mut [u8], to: usize) -> Stated
    ensures { ReasonPut s.now at out.old to out.new result }
{
    let gap = lexis_space::space_end(s, at);
    match result_parts::reason_from(s, at, gap) {
        Reason::Stated { start, end, quoted } => {
            let n = report_lines::put_reason(s, start, end, quoted, out, to);
            Stated {
                end,
                gap: lexis_space::space_end(s, end),
                next: n,
            }
        }
        Reason::Absent => Stated {
            end: at,
            gap,
            next: to,
        },
    }
}

// Reason and properties behind a result that ends at a place, with their lines.
fn put_details(s: &[u8], at: usize, out: &mut [u8], to: usize) -> Details
    ensures { DetailsPut s.now at out.old to out.new result }
{
    let r = put_reason(s, at, out, to);
    put_properties(s, r.end, r.gap, out, r.next)
}

// A result that was read: the place after it, with its space, the place after its lines, and whether it is understood.
#[derive(Clone, Copy)]
pub struct Turn {
    pub end: usize,
    pub gap: usize,
    pub next: usize,
    pub understood: bool,
}

// The result at a place, behind its separator, with its lines, if there is one.
pub fn put_result(s: &[u8], at: usize, out: &mut [u8], to: usize) -> Option<Turn>
    ensures value { result ≡ turn_at s.now at to }
    ensures out_after { out.new ≡ sets out.old to (lines_at s.now at) }
{
    match result_method::method_at(s, at) {
        Method::Read {
            start,
            end,
            version,
            result_start,
            result_end,
        } => {
            let known = knows_method(version, s, start, end, result_start, result_end);
            let n = report_lines::put_method(s, start, end, result_start, result_end, out, to);
            let d = put_details(s, result_end, out, n);
            Some(Turn {
                end: d.end,
                gap: d.gap,
                next: d.next,
                understood: known && d.known,
            })
        }
        Method::Missing => None,
    }
}
