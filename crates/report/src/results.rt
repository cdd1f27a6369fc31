// The results of a body, one after the other: each is read and its lines are written in one go, and where it then turns out that it is
// ignored, the next ones are written over them.
//
// So where there is more room than the lines that stay take, something of an ignored result may be left past their end.
//
// The space behind each result is read once: with the place where it ends (`at`, `end`) goes the place where the space behind it ends
// (`gap`).
ghost use Rattle.std.specs.Prelude.{◌≡◌, ◌+◌, ◌≤◌, ◌<◌, ◌^◌, length};
ghost use Rattle.base_readers.specs.Places.{list_at};
ghost use Rattle.lexis_rules.specs.Limits.{byte_limit};
ghost use Rattle.result_separators.specs.Separators.{spaced};
ghost use Rattle.report_rules.specs.Body.{resinfo};
ghost use Rattle.report_rules.specs.Report.{lines};
ghost use Rattle.report.specs.Internal.{turn_lines, TurnPut, ResultsPut};

use report_results::Turn;

// The next result behind a place, with its lines: a separator, and what stands behind it.
fn put_next(s: &[u8], at: usize, gap: usize, out: &mut [u8], to: usize) -> Option<Turn>
    requires { (gap ≡ spaced s.now at) × (to + length (turn_lines s.now at) < 2 ^ 64) }
    ensures { TurnPut s.now at out.old to out.new result }
{
    let a = result_separators::separator_from(s, at, gap, b';');
    if a == at {
        return None;
    }
    report_results::put_result(s, a, out, to)
}

// All results behind a place: the place after the last of them, with its space, the place after the lines of those that are understood,
// and how many are not.
#[derive(Clone, Copy)]
pub(crate) struct Results {
    pub(crate) end: usize,
    pub(crate) gap: usize,
    pub(crate) next: usize,
    pub(crate) ignored: usize,
}

pub(crate) fn put_results(s: &[u8], at: usize, gap: usize, out: &mut [u8], to: usize) -> Results
    requires { (gap ≡ spaced s.now at) × ((length s.now ≤ byte_limit) × (to + length (lines (list_at resinfo s.now at)) < 2 ^ 63)) }
    ensures { ResultsPut s.now at out.old to out.new result }
{
    let mut i = at;
    let mut a = gap;
    let mut n = to;
    let mut ignored: usize = 0;
    while let Some(turn) = put_next(s, i, a, out, n) {
        i = turn.end;
        a = turn.gap;
        if turn.understood {
            n = turn.next;
        } else {
            ignored += 1;
        }
    }
    Results {
        end: i,
        gap: a,
        next: n,
        ignored,
    }
}
