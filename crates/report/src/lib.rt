// The report of a field body: who checked a message, and what they found.
//
// `report(body, out)` writes lines ended by LF, columns parted by one tab (RFC 8601 by the rules of 01, "The report"), and answers
//   0  done: the bytes written and how many results were ignored, place 0
//   1  the body has more than 65,536 bytes: place 0
//   7  the identifier can't be read: place 0
//   8  the header version isn't 1: two lines, the identifier and the version, place 0
//   9  the body is not well-formed: place 0
//   6  `out` is too short: the bytes needed
// tried in this order (1, then 7, 8 or 9, then 6 where it would have been 0 or 8). A refusal, any of these but 0 and 8, writes nothing and
// returns zero counts; bytes past those written stay unchanged.
#![tactic(auto)]

ghost use Rattle.std.specs.Prelude.{◌≡◌, [], ◌≤◌, ◌^◌, length, drop};
ghost use Rattle.base_sequences.specs.Stored.{cap};
ghost use Rattle.base_readers.specs.Texts.{bytes};
ghost use Rattle.lexis_rules.specs.Limits.{byte_limit};
ghost use Rattle.identifier.specs.Answers.{identifier_at};
ghost use Rattle.result_separators.specs.Separators.{spaced};
ghost use Rattle.report_rules.specs.Body.{word_none, payload, headed, reading};
ghost use Rattle.report_rules.specs.Report.{report};
ghost use Rattle.report_rules.specs.Answers.{answer_of, leaves};
ghost use Rattle.report.specs.Internal.{succeeds, newer_at, headed_at, Behind, Said};

use base_answers::Number;
use identifier::Identifier;
use identifier::version::Version;
use report_rules::Reported;
use text_first_pass::Copy;

mod results;

fn refuse(number: u8, place: usize) -> Reported
    ensures { result ≡ record { number = number; place = place; written = 0; ignored = 0 } }
{
    Reported {
        number,
        place,
        written: 0,
        ignored: 0,
    }
}

// Whether ";" and the word none, and after space the end, stand behind a place, where the space behind it ends at `gap`.
fn says_none(s: &[u8], at: usize, gap: usize) -> bool
    requires { gap ≡ spaced s.now at }
    ensures { result ≡ succeeds word_none (drop at s.now) }
{
    let a = result_separators::separator_from(s, at, gap, b';');
    if a == at {
        return false;
    }
    let e = lexis_tokens::keyword_end(s, a);
    if e == a {
        return false;
    }
    if text_compare::same_text(&s[a..e], b"none") {
        return lexis_space::space_end(s, e) >= s.len();
    }
    false
}

// Results or the word none, behind a head that ends at a place; `to` bytes come before them.
fn put_payload(s: &[u8], at: usize, out: &mut [u8], to: usize) -> Reported
    requires { (length s.now ≤ byte_limit) × (to ≤ 2 ^ 32) }
    ensures { Behind (payload [] (drop at s.now)) out.old to out.new result }
{
    let gap = lexis_space::space_end(s, at);
    if says_none(s, at, gap) {
        let n = report_lines::put_none(out, to);
        return Reported {
            number: Number::DONE,
            place: 0,
            written: n,
            ignored: 0,
        };
    }
    let r = results::put_results(s, at, gap, out, to);
    if r.end == at {
        return refuse(Number::MALFORMED, 0);
    }
    if r.gap < s.len() {
        return refuse(Number::MALFORMED, 0);
    }
    Reported {
        number: Number::DONE,
        place: 0,
        written: r.next,
        ignored: r.ignored,
    }
}

// What stands behind a head of version 1, if it is delimited.
fn put_version_one(s: &[u8], at: usize, out: &mut [u8], to: usize) -> Reported
    requires { (length s.now ≤ byte_limit) × (to ≤ 2 ^ 32) }
    ensures { Behind (headed (record { identifier = []; version = bytes "1" }) (drop at s.now)) out.old to out.new result }
{
    if lexis_classes::delimiters::delimited(s, at) {
        return put_payload(s, at, out, to);
    }
    refuse(Number::MALFORMED, 0)
}

// The line of a header version other than 1, whose digits stand from a up to e: nothing behind it is read.
fn put_newer(s: &[u8], a: usize, e: usize, out: &mut [u8], to: usize) -> Reported
    requires { ((length s.now ≤ byte_limit) × (to ≤ 2 ^ 32)) × ((a ≤ e) × (e ≤ length s.now)) }
    ensures { Behind (newer_at s.now a e) out.old to out.new result }
{
    if lexis_classes::delimiters::delimited(s, e) {
        let n = report_lines::put_version(&s[a..e], out, to);
        return Reported {
            number: Number::NEWER,
            place: 0,
            written: n,
            ignored: 0,
        };
    }
    refuse(Number::MALFORMED, 0)
}

// Header version and what follows it, behind an identifier that ends at a place.
fn put_headed(s: &[u8], at: usize, out: &mut [u8], to: usize) -> Reported
    requires { (length s.now ≤ byte_limit) × (to ≤ 2 ^ 32) }
    ensures { Behind (headed_at s.now at) out.old to out.new result }
{
    match identifier::version::version_at(s, at) {
        Version::Stated { start, end, number } => {
            if lexis_digits::is_one(number) {
                return put_version_one(s, end, out, to);
            }
            put_newer(s, start, end, out, to)
        }
        Version::Absent => put_version_one(s, at, out, to),
    }
}

// All that a body says whose identifier stands from a up to e, written over the front of `out`. What stood past it may be lost, and on a
// body that is not well-formed all of `out`.
fn put_body(s: &[u8], a: usize, e: usize, quoted: bool, out: &mut [u8]) -> Reported
    requires { (length s.now ≤ byte_limit) × (Identifier.Readable a e quoted ≡ identifier_at s.now) }
    ensures { Said (reading s.now) out.old out.new result }
{
    let n = report_lines::put_id(s, a, e, quoted, out);
    put_headed(s, e, out, n)
}

// The report of a body whose identifier stands from a up to e, and the answer: `out` is written only where all of it fits. The first pass runs on a
// buffer of its own, and so measures. What fits that too is copied from it; else a second pass runs on as much of `out` as was measured.
fn put_measured(s: &[u8], a: usize, e: usize, quoted: bool, out: &mut [u8]) -> Reported
    requires { (length s.now ≤ byte_limit) × (Identifier.Readable a e quoted ≡ identifier_at s.now) }
    ensures value { result ≡ answer_of (report s.now (length out.old)) }
    ensures out_after { out.new ≡ leaves (report s.now (length out.old)) out.old }
{
    let mut scratch = [0u8; 1024];
    let first = put_body(s, a, e, quoted, &mut scratch);
    if first.number == Number::MALFORMED {
        return first;
    }
    match text_first_pass::copy_first(&scratch, first.written, out) {
        Copy::Short => refuse(Number::TOO_SHORT, first.written),
        Copy::Again => put_body(s, a, e, quoted, &mut out[..first.written]),
        Copy::Done => first,
    }
}

// Reports a body into a lent buffer.
pub fn report(body: &[u8], out: &mut [u8]) -> Reported
    ensures value { result ≡ answer_of (report body.now (length out.old)) }
    ensures out_after { out.new ≡ leaves (report body.now (length out.old)) out.old }
{
    if lexis_limits::too_long(body) {
        return refuse(Number::TOO_LONG, 0);
    }
    let Identifier::Readable { start, end, quoted } = identifier::identify(body) else {
        return refuse(Number::UNREADABLE, 0);
    };
    put_measured(body, start, end, quoted, out)
}

// What `report` answers where there is the largest room: how many bytes the report of a body has, and how many results are ignored. The pass runs on an
// empty buffer, so that it only measures.
pub fn measure(body: &[u8]) -> Reported
    ensures { result ≡ answer_of (report body.now cap) }
{
    if lexis_limits::too_long(body) {
        return refuse(Number::TOO_LONG, 0);
    }
    let Identifier::Readable { start, end, quoted } = identifier::identify(body) else {
        return refuse(Number::UNREADABLE, 0);
    };
    let mut none = [0u8; 1];
    put_body(body, start, end, quoted, &mut none[..0])
}
