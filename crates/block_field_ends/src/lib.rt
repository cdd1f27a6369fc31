// Where a field ends whose lines are all whole: it is found without a look at each of them.
//
// `whole_end` answers the place behind the field's last CRLF, and the place itself where a CR stands without LF, an LF without CR, or the last
// line has no CRLF. What stands in the lines, name and colon too, is not looked at.
#![tactic(auto)]

ghost use Rattle.std.specs.Prelude.{◌≡◌, false, ◌||◌, eqb, ◌+◌, ◌≤◌, length, drop};
ghost use Rattle.block_field_ends.specs.Ends.{whole};
ghost use Rattle.block_field_ends.specs.Internal.{broken, end_or, Onward};

// Whether a byte is space or tab. Both tests are made, so that many bytes can be tested at once.
fn is_blank(b: u8) -> bool
    ensures { result ≡ (eqb b 32 || eqb b 9) }
{
    (b == b' ') | (b == b'\t')
}

// Whether the first of three bytes in a row can't stand inside a field: a CR without LF, an LF without CR, or a CRLF without space or tab
// behind it. All tests are made.
fn breaks(a: u8, b: u8, c: u8) -> bool
    ensures { result ≡ broken a b c }
{
    ((a == b'\r') != (b == b'\n')) | ((b == b'\n') & !is_blank(c))
}

// Whether one of n bytes can't. There is no way out of the loop, so that with n a number in the call it is compiled to a few wide compares.
fn has_break(s: &[u8], at: usize, n: usize) -> bool
    requires { at + n + 2 ≤ length s.now }
    ensures { result ≡ false → Onward s.now at (at + n) }
{
    let mut hit = false;
    for j in 0..n {
        hit |= breaks(s[at + j], s[at + j + 1], s[at + j + 2]);
    }
    hit
}

// A place up to which a field goes on: sixteen bytes at a time, whatever lines they are. That place is the answer, so it is kept, and no iterator of
// pieces; three bytes in a row are asked, which is no test of single bytes (`base_runs`). What is left is measured once: with a test of it in each turn a
// field of three lines takes a sixth more instructions.
fn smooth_end(s: &[u8], at: usize) -> usize
    ensures { Onward s.now at result }
{
    if base_readers::rest(s.len(), at) < 18 {
        return at;
    }
    let last = s.len() - 18;
    let mut i = at;
    loop {
        if i > last {
            return i;
        }
        if has_break(s, i, 16) {
            return i;
        }
        i += 16;
    }
}

// The end of a field whose lines are all whole, from a place inside it: a byte at a time. Where one lacks its CRLF the answer is `start`. It goes
// past a CRLF by two, so that it is no `for`.
fn end_near(s: &[u8], start: usize, at: usize) -> usize
    ensures { result ≡ end_or start s.now at }
{
    let mut i = at;
    while i < s.len() {
        if s[i] > b'\r' {
            i += 1;
        } else if s[i] == b'\r' {
            if base_readers::is_at(s, i, 1, b'\n') {
                if is_blank(base_readers::byte(s, i, 2)) {
                    i += 2;
                } else {
                    return i + 2;
                }
            } else {
                return start;
            }
        } else if s[i] == b'\n' {
            return start;
        } else {
            i += 1;
        }
    }
    start
}

// The end of a field whose lines are all whole; the place itself where one lacks its CRLF.
pub fn whole_end(s: &[u8], at: usize) -> usize
    ensures { result ≡ at + whole (drop at s.now) }
{
    if base_readers::is_at(s, at, 0, b'\n') {
        return at;
    }
    let e = smooth_end(s, at);
    if base_readers::is_at(s, e, 0, b'\n') {
        return end_near(s, at, e + 1);
    }
    end_near(s, at, e)
}
