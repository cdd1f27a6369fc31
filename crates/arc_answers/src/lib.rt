// The answer of a chain: built, and what the verdicts make of it, or failed.
#![tactic(auto)]

ghost use Rattle.std.specs.Prelude.{◌≡◌, ◌<◌};
ghost use Rattle.arc_rules.specs.Chain.{failed, built, seal_good, all, valid_for, passes, oldest_pass, blank, judged};
ghost use Rattle.arc_rules.specs.Answers.{answer_of};

use arc_rules::Judged;
use base_answers::{Number, Outcome, Reason, Status, Verdict};

// Whether the verdicts are n bytes from 0 to 3.
fn are_valid(n: usize, v: &[u8]) -> bool
    ensures { result ≡ valid_for n v.now }
{
    v.len() == n && v.iter().all(|verdict| *verdict <= Verdict::MOST)
}

// Whether all seals are good.
fn seals_good(v: &[u8]) -> bool
    ensures { result ≡ all seal_good v.now }
{
    v.iter().all(|verdict| *verdict >= Verdict::SEAL)
}

// Whether all seals and the last signature are good.
fn is_pass(v: &[u8]) -> bool
    ensures { result ≡ passes v.now }
{
    if v.len() == 0 {
        return false;
    }
    if v[v.len() - 1] % 2 == 1 {
        return seals_good(v);
    }
    false
}

// One more than the highest instance with a bad signature; 0 if all are good.
fn oldest_pass(v: &[u8]) -> usize
    ensures { result ≡ oldest_pass v.now }
{
    let mut rest = v;
    while let Some((last, front)) = rest.split_last() {
        if *last % 2 == 0 {
            return rest.len() + 1;
        }
        rest = front;
    }
    0
}

// A number and its place, with nothing judged.
pub fn blank(number: u8, place: usize) -> Judged
    ensures { result ≡ answer_of (blank number place) }
{
    Judged {
        number,
        place,
        outcome: Outcome::NONE,
        reason: Reason::NONE,
        field: 0,
        instances: 0,
        status: Status::NONE,
        oldest: 0,
    }
}

// The answer for a chain that failed, with its reason and the field that it names: the verdicts are not read.
pub fn failed(reason: u8, field: usize, v: &[u8]) -> Judged
    ensures { result ≡ answer_of (judged (failed reason field) v.now) }
{
    Judged {
        number: Number::DONE,
        place: 0,
        outcome: Outcome::FAILED,
        reason,
        field,
        instances: 0,
        status: Status::FAIL,
        oldest: 0,
    }
}

// The answer where a chain of n instances is built.
pub fn judge_built(n: usize, v: &[u8]) -> Judged
    ensures { result ≡ answer_of (judged (built n) v.now) }
{
    if !are_valid(n, v) {
        return blank(Number::BAD_VERDICTS, 0);
    }
    if is_pass(v) {
        return Judged {
            number: Number::DONE,
            place: 0,
            outcome: Outcome::BUILT,
            reason: Reason::NONE,
            field: 0,
            instances: n,
            status: Status::PASS,
            oldest: oldest_pass(v),
        };
    }
    Judged {
        number: Number::DONE,
        place: 0,
        outcome: Outcome::BUILT,
        reason: Reason::NONE,
        field: 0,
        instances: n,
        status: Status::FAIL,
        oldest: 0,
    }
}
