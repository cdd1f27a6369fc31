// The code points of a label behind its prefix (RFC 3492, section 6.2), in an array with room for 1,020 of them.
ghost use Rattle.std.specs.Prelude.{◌≡◌, ◌≤◌, ◌<◌, length, take};
ghost use Rattle.punycode_rules.specs.Punycode.{before_last};
ghost use Rattle.punycode_rules.specs.Labels.{spelling_limit};
ghost use Rattle.punycode.specs.Internal.{Inserted, Opened, Ends, Copied, Tells};

use super::numbers;
use super::numbers::Numbers;

// Why a label has no code points that can be read: it has none; or it is long, and has none, or more than there is room for.
#[derive(Drop)]
pub(crate) enum NoPoints {
    Failed,
    Long,
}

// Inserts a code point among the first `count` of an array. By hand: of the library's `rotate_right` the compiler makes a call of `memmove`, also where
// nothing is to be moved, and a loop over `at..count + 1` that carries a value on takes up to half as many instructions again for a label. It is a call of
// its own, since compiled into the loop over the digits it takes a quarter more.
#[inline(never)]
fn insert(out: &mut [u32], count: usize, at: usize, x: u32)
    requires { (at ≤ count) × (count < length out.old) }
    ensures { Inserted out.old count at x out.new }
{
    let mut j = count;
    while at < j {
        out[j] = out[j - 1];
        j -= 1;
    }
    out[at] = x;
}

// Reads the numbers from a place of the input on: the first `basics` of the array are the basic code points.
fn read_numbers(s: &[u8], at: usize, out: &mut [u32], basics: usize) -> Result<usize, NoPoints>
    requires { Opened s.now at out.old basics }
    ensures { Ends s.now at (take basics out.old) out.new result }
{
    let mut q = Numbers::fresh();
    let mut count = basics;
    for p in at..s.len() {
        let d = numbers::digit_of(s[p]);
        if d >= Numbers::BASE {
            return Err(NoPoints::Failed);
        }
        if q.advanced(d) >= Numbers::LIMIT {
            return Err(NoPoints::Failed);
        }
        if q.threshold() <= d {
            q = q.more(d);
            continue;
        }
        if count >= out.len() {
            return Err(NoPoints::Long);
        }
        q = q.last(d, count as u64);
        if !numbers::is_scalar(q.n) {
            return Err(NoPoints::Failed);
        }
        insert(out, count, (q.i - 1) as usize, q.n as u32);
        count += 1;
    }
    if q.k == Numbers::BASE {
        Ok(count)
    } else {
        Err(NoPoints::Failed)
    }
}

// How many bytes stand before the last hyphen; 0 where there is none.
fn before_last(s: &[u8]) -> usize
    ensures { result ≡ before_last 0 0 s.now }
{
    let mut found: usize = 0;
    for p in 0..s.len() {
        if s[p] == b'-' {
            found = p;
        }
    }
    found
}

// Copies the first bytes to the array, if all of them are basic.
fn copy_basics(s: &[u8], b: usize, out: &mut [u32]) -> bool
    requires { (b ≤ length s.now) × (b ≤ length out.old) }
    ensures { Copied s.now b out.new result }
{
    for j in 0..b {
        if s[j] >= 128 {
            return false;
        }
        out[j] = u32::from(s[j]);
    }
    true
}

// The code points of a label behind its prefix: how many of the array they are. Where they are not read, nothing is promised of what the array holds.
pub(crate) fn read_points(s: &[u8], out: &mut [u32]) -> Result<usize, NoPoints>
    requires { length out.old ≡ spelling_limit }
    ensures { Tells s.now out.new result }
{
    let b = before_last(s);
    if b > out.len() {
        return Err(NoPoints::Long);
    }
    if !copy_basics(s, b, out) {
        return Err(NoPoints::Failed);
    }
    let at = if b == 0 { 0 } else { b + 1 };
    read_numbers(s, at, out, b)
}
