// The lines of a header block: where a line ends, and where the folded lines behind it do.
#![tactic(auto)]

ghost use Rattle.std.specs.Prelude.{◌≡◌, ◌+◌, drop, get_or};
ghost use Rattle.base_readers.specs.Readers.{many};
ghost use Rattle.lexis_rules.specs.Bytes.{in_class};
ghost use Rattle.block_rules.specs.Fields.{in_line, line_text, line, folded};

use base_runs::ByteTest;
use lexis_rules::Class;

// The bytes of a line: neither CR nor LF.
#[derive(Drop)]
struct InLine;

impl ByteTest for InLine {
    ghost passes = { λ t. in_line };

    // Both tests are made, so that many bytes can be tested at once.
    fn passes(&self, b: u8) -> bool {
        (b != b'\r') & (b != b'\n')
    }
}

// The next CR or LF, or the end: sixteen bytes at a time.
pub fn line_text(s: &[u8], at: usize) -> usize
    ensures { result ≡ at + line_text (drop at s.now) }
{
    base_runs::wide_run_end::<16, _>(s, at, &InLine)
}

// The end of a line with its CRLF: the place itself where it has none.
pub fn line_end(s: &[u8], at: usize) -> usize
    ensures { result ≡ at + line (drop at s.now) }
{
    let e = line_text(s, at);
    if base_readers::is_at(s, e, 0, b'\r') {
        if base_readers::is_at(s, e, 1, b'\n') {
            return e + 2;
        }
    }
    at
}

// Whether a space or tab stands at a place.
pub fn blank_at(s: &[u8], at: usize) -> bool
    ensures { result ≡ in_class Class.Blank (get_or (drop at s.now) 0 0) }
{
    lexis_classes::class_at(s, at, 0, Class::Blank)
}

// The end of a line that starts with space or tab: the place itself where there is none.
fn folded_end(s: &[u8], at: usize) -> usize
    ensures { result ≡ at + folded (drop at s.now) }
{
    if blank_at(s, at) {
        return line_end(s, at);
    }
    at
}

// The end of such lines, one after the other. Each is as long as it is read to be, so there is no range to go over.
pub fn folds_end(s: &[u8], at: usize) -> usize
    ensures { result ≡ at + many folded 0 (drop at s.now) }
{
    let mut i = at;
    loop {
        let e = folded_end(s, i);
        if e == i {
            return i;
        }
        i = e;
    }
}
