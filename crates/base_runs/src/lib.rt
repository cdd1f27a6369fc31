// The end of a run of bytes that pass a test: found one byte at a time, or many at once.
//
// `ByteTest` is a test of bytes. Its readers are handed a slice and a place in it, any place, also past the end. They answer the place after the run
// of bytes that starts there, and the place itself where there is none.
#![tactic(auto)]

ghost use Rattle.std.specs.Prelude.{◌≡◌, ℕ, Bool, false, true, ◌+◌, length, drop};
ghost use Rattle.base_readers.specs.Readers.{run};

// A test of bytes.
pub trait ByteTest {
    // The bytes that pass.
    ghost passes: { Self → ℕ → Bool };

    // Whether a byte passes.
    fn passes(&self, b: u8) -> bool
        ensures { result ≡ passes self.now b };

    // Whether a byte may fail. Where this is told by a few compares, all of which are made, many bytes are tried at once. It may be said of bytes that
    // pass: each of them is then tried by itself.
    fn may_fail(&self, b: u8) -> bool
        ensures { result ≡ false → passes self.now b ≡ true }
    {
        !self.passes(b)
    }

    // The end of a run: a byte at a time. The place is counted by hand: compiled into its callers, a loop over `at..s.len()` keeps two counts more, some of them
    // in memory, and a long local part takes half as much time again.
    fn run_end(&self, s: &[u8], at: usize) -> usize
        ensures { result ≡ at + run (passes self.now) (drop at s.now) }
    {
        let mut i = at;
        while i < s.len() {
            if !self.passes(s[i]) {
                return i;
            }
            i += 1;
        }
        i // the run goes on to the end of the bytes
    }
}

// Whether one of the bytes may fail. There is no way out of the loop, so that for a number of bytes that is known where it is compiled it becomes a few
// wide compares.
fn any_may_fail<T: ByteTest>(bytes: &[u8], test: &T) -> bool
    ensures { result ≡ false → run (T.passes test.now) bytes.now ≡ length bytes.now }
{
    let mut hit = false;
    for b in bytes {
        hit = hit | test.may_fail(*b);
    }
    hit
}

// The end of a run: N bytes at a time, as long as none of them may fail, and from there on a byte at a time. The place at which the wide part ends is
// what goes on, so that it is kept, and no iterator of pieces.
pub fn wide_run_end<const N: usize, T: ByteTest>(s: &[u8], at: usize, test: &T) -> usize
    ensures { result ≡ at + run (T.passes test.now) (drop at s.now) }
{
    let mut i = at;
    while 0 < N && N <= base_readers::rest(s.len(), i) {
        if any_may_fail(&s[i..i + N], test) {
            break;
        }
        i += N;
    }
    test.run_end(s, i)
}
