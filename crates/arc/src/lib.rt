// ARC chains (RFC 8617): whether a block holds a chain of sets that is built, and what it says by the verdicts on its signatures.
//
// `judge(block, verdicts)` answers
//   0  done: outcome, reason, field, instances, status and oldest-pass, place 0
//   1  the block has more than 65,536 bytes: place 0
//   2  a CR without LF, an LF without CR, or a last line without CRLF: that byte, or the block length
//   3  an empty line, a first line starting with space or tab, or a field that lacks name or colon: the start of the line
//   4  a 513th field: its start
//   10 the chain is built and the verdicts are not one byte from 0 to 3 for each instance: place 0
// tried in this order. A refusal, any of these but 0, has 0 for everything else.
//
// The outcome is 0 (none: no ARC field), 1 (failed) or 2 (built, with the number of instances). The reason of a failed chain is the first
// that applies:
//   1  a field that can't be read; `field` is the number of the first, among all fields from 1
//   2  a second field of one kind at one instance; `field` is the number of the first
//   3  an instance up to the highest without a field of each kind
//   4  the seal at the highest instance has cv fail
//   5  the seal at 1 hasn't cv none, or a later one hasn't cv pass
// The status is 0 (none), 1 (pass) or 2 (fail); `oldest` is the oldest-pass, which there is exactly where the status
// is pass.
#![tactic(auto)]

ghost use Rattle.std.specs.Prelude.{◌≡◌, ◌≤◌, ◌<◌, length, take};
ghost use Rattle.lexis_rules.specs.Limits.{byte_limit};
ghost use Rattle.arc_rules.specs.Chain.{column, first, sealed, placed, noted, any_empty, prescribed, judged, judge};
ghost use Rattle.arc_rules.specs.Sets.{last_instance};
ghost use Rattle.arc_rules.specs.Answers.{answer_of};
ghost use Rattle.arc.specs.Internal.{field_said, said_of, is_other, sets_of, GatheredFrom, Places, ranked_by};

use arc_fields::Instance;
use arc_rules::{Judged, Kind};
use base_answers::{ChainValue, Number, Reason};
use block::{Next, Walk};

// What an ARC field says: its instance, and a seal's chain value (0 for the other kinds).
#[derive(Clone, Copy)]
struct Field {
    instance: usize,
    cv: u8,
}

// What the body of a field of a kind says, if it can be read.
fn read_field(kind: Kind, body: &[u8]) -> Option<Field>
    requires { length body.now ≤ byte_limit }
    ensures { field_said result ≡ said_of kind body.now }
{
    let start = arc_fields::instance_of(body)?;
    let instance = start.instance;
    match kind {
        Kind::Results => Some(Field { instance, cv: 0 }),
        Kind::Signature => {
            let cv = tag_list::list_at(false, body, start.end)?;
            Some(Field { instance, cv })
        }
        Kind::Seal => {
            let cv = tag_list::list_at(true, body, start.end)?;
            Some(Field { instance, cv })
        }
        Kind::Other => None,
    }
}

// The numbers of the first unreadable and the first repeated field, 0 for none, as the definition (`Sets`) and the answer have them, and the highest instance.
#[derive(Clone, Copy)]
struct Counts {
    unreadable: usize,
    repeated: usize,
    highest: usize,
}

// A number, or the one that came first.
fn first(a: usize, n: usize) -> usize
    ensures { result ≡ first a n }
{
    if a == 0 {
        return n;
    }
    a
}

// The column of a kind.
fn column(kind: Kind) -> usize
    ensures { result ≡ column kind }
{
    match kind {
        Kind::Results => 0,
        Kind::Signature => 1,
        Kind::Seal => 2,
        Kind::Other => 3,
    }
}

fn narrow(x: usize) -> u16
    requires { x < 65536 }
    ensures { result ≡ x }
{
    x as u16
}

// Keeps a seal's chain value.
fn keep_cv(kind: Kind, cvs: &mut [u8; Instance::LAST], instance: usize, cv: u8)
    requires { (1 ≤ instance) × (instance ≤ last_instance) }
    ensures { cvs.new ≡ sealed kind instance cv cvs.old }
{
    match kind {
        Kind::Results => {}
        Kind::Signature => {}
        Kind::Seal => {
            cvs[instance - 1] = cv;
        }
        Kind::Other => {}
    }
}

// Puts the n-th field, which is of one of the three kinds and reads, into its place, unless that is taken.
fn place(
    kind: Kind,
    n: usize,
    field: Field,
    places: &mut [[u16; 3]; Instance::LAST],
    cvs: &mut [u8; Instance::LAST],
    c: Counts,
) -> Counts
    requires { ((1 ≤ field.instance) × (field.instance ≤ last_instance)) × ((column kind < 3) × (n < 65536)) }
    ensures { sets_of places.new cvs.new result ≡ placed n kind (record { instance = field.instance; cv = field.cv }) (sets_of places.old cvs.old c) }
{
    let k = column(kind);
    if places[field.instance - 1][k] != 0 {
        return Counts {
            repeated: first(c.repeated, n),
            ..c
        };
    }
    places[field.instance - 1][k] = narrow(n);
    keep_cv(kind, cvs, field.instance, field.cv);
    Counts {
        highest: c.highest.max(field.instance),
        ..c
    }
}

// Whether a field is none of the three kinds.
fn is_other(kind: Kind) -> bool
    ensures { result ≡ is_other kind }
{
    match kind {
        Kind::Results => false,
        Kind::Signature => false,
        Kind::Seal => false,
        Kind::Other => true,
    }
}

// Notes the n-th field of a block.
fn note(
    kind: Kind,
    n: usize,
    body: &[u8],
    places: &mut [[u16; 3]; Instance::LAST],
    cvs: &mut [u8; Instance::LAST],
    c: Counts,
) -> Counts
    requires { (length body.now ≤ byte_limit) × (n < 65536) }
    ensures { sets_of places.new cvs.new result ≡ noted n kind body.now (sets_of places.old cvs.old c) }
{
    if is_other(kind) {
        return c;
    }
    match read_field(kind, body) {
        Some(field) => place(kind, n, field, places, cvs, c),
        None => Counts {
            unreadable: first(c.unreadable, n),
            ..c
        },
    }
}

// The refusal of a walk over a block, 0 and 0 where there is none, and what was noted of its fields.
#[derive(Drop)]
struct Gathered {
    number: u8,
    place: usize,
    counts: Counts,
}

// Notes all fields of a block, up to the first refusal. The walk goes on from what the splitter answers, so there is no range to go over.
fn read_sets(
    s: &[u8],
    places: &mut [[u16; 3]; Instance::LAST],
    cvs: &mut [u8; Instance::LAST],
) -> Gathered
    requires { length s.now ≤ byte_limit }
    ensures { GatheredFrom s.now places.old cvs.old places.new cvs.new result }
{
    let fresh = Walk::fresh();
    let mut at = fresh.at;
    let mut count = fresh.count;
    let mut c = Counts {
        unreadable: 0,
        repeated: 0,
        highest: Instance::none().number,
    };
    loop {
        match block::next_field(s, Walk { at, count }) {
            Next::Field {
                start,
                name_end,
                body_start,
                end,
            } => {
                let kind = arc_fields::kinds::kind_of(&s[start..name_end]);
                c = note(kind, count + 1, &s[body_start..end - 2], places, cvs, c);
                at = end;
                count += 1;
            }
            Next::End => {
                return Gathered {
                    number: Number::DONE,
                    place: 0,
                    counts: c,
                };
            }
            Next::Refused { number, place } => {
                return Gathered {
                    number,
                    place,
                    counts: c,
                };
            }
        }
    }
}

// Whether one of the first n instances has an empty place.
fn has_empty(places: &[[u16; 3]; Instance::LAST], n: usize) -> bool
    requires { (n ≤ last_instance) × Places places.now }
    ensures { result ≡ any_empty (take n places.now) }
{
    let mut found = false;
    'search: for i in 0..n {
        for k in 0..3 {
            if places[i][k] == 0 {
                found = true;
                break 'search;
            }
        }
    }
    found
}

// Whether the chain values of the first n instances are none and then pass.
fn is_prescribed(cvs: &[u8; Instance::LAST], n: usize) -> bool
    requires { (n ≤ last_instance) × (length cvs.now ≡ last_instance) }
    ensures { result ≡ prescribed (take n cvs.now) }
{
    if n == 0 {
        return true;
    }
    cvs[0] == ChainValue::NONE && cvs[1..n].iter().all(|cv| *cv == ChainValue::PASS)
}

// The answer where every ARC field reads, none is repeated, and n is the highest instance.
fn judge_complete(
    places: &[[u16; 3]; Instance::LAST],
    cvs: &[u8; Instance::LAST],
    n: usize,
    v: &[u8],
) -> Judged
    requires { ((1 ≤ n) × (n ≤ last_instance)) × (Places places.now × (length cvs.now ≡ last_instance)) }
    ensures { result ≡ answer_of (judged (ranked_by n places.now cvs.now) v.now) }
{
    if has_empty(places, n) {
        return arc_answers::failed(Reason::EMPTY_PLACE, 0, v);
    }
    if cvs[n - 1] == ChainValue::FAIL {
        return arc_answers::failed(Reason::LAST_FAIL, 0, v);
    }
    if is_prescribed(cvs, n) {
        return arc_answers::judge_built(n, v);
    }
    arc_answers::failed(Reason::NOT_PRESCRIBED, 0, v)
}

// Judges the chain of a block by the verdicts on its signatures.
pub fn judge(s: &[u8], verdicts: &[u8]) -> Judged
    ensures { result ≡ answer_of (judge s.now verdicts.now) }
{
    if lexis_limits::too_long(s) {
        return arc_answers::blank(Number::TOO_LONG, 0);
    }
    let mut places = [[0u16; 3]; Instance::LAST];
    let mut cvs = [0u8; Instance::LAST];
    let g = read_sets(s, &mut places, &mut cvs);
    if g.number != Number::DONE {
        return arc_answers::blank(g.number, g.place);
    }
    if g.counts.unreadable != 0 {
        return arc_answers::failed(Reason::UNREADABLE, g.counts.unreadable, verdicts);
    }
    if g.counts.repeated != 0 {
        return arc_answers::failed(Reason::REPEATED, g.counts.repeated, verdicts);
    }
    if g.counts.highest == 0 {
        return arc_answers::blank(Number::DONE, 0);
    }
    judge_complete(&places, &cvs, g.counts.highest, verdicts)
}
