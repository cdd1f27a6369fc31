// The chain value that a seal says: 1, 2 or 3 for none, pass or fail in any case, without the space around it; 0 for any other text.
ghost use Rattle.std.specs.Prelude.{◌≡◌, true, ◌+◌};
ghost use Rattle.base_readers.specs.Readers.{run};
ghost use Rattle.tag_rules.specs.Tags.{white, solid, trimmed};
ghost use Rattle.tag_rules.specs.Needed.{chain_value};

use base_answers::ChainValue;
use base_runs::ByteTest;

// Whether a byte is space.
fn is_white(b: u8) -> bool
    ensures { result ≡ white b }
{
    if b == b' ' {
        return true;
    }
    if b == b'\t' {
        return true;
    }
    if b == b'\r' {
        return true;
    }
    b == b'\n'
}

// The bytes of space.
#[derive(Drop)]
struct White;

impl ByteTest for White {
    ghost passes = { λ t. white };

    fn passes(&self, b: u8) -> bool {
        is_white(b)
    }
}

// The end of the space at the front of a text.
fn white_end(v: &[u8]) -> usize
    ensures { result ≡ run white v.now }
{
    White.run_end(v, 0)
}

// Where the space at the end of a text starts.
fn solid_end(v: &[u8]) -> usize
    ensures { result ≡ solid v.now }
{
    let mut rest = v;
    while let Some((last, front)) = rest.split_last() {
        if !is_white(*last) {
            return rest.len();
        }
        rest = front;
    }
    0
}

// The chain value none, pass or fail: 1, 2 or 3; 0 for any other text.
fn chain_value(t: &[u8]) -> u8
    ensures { result ≡ chain_value t.now }
{
    if text_compare::same_text(t, b"none") {
        return ChainValue::NONE;
    }
    if text_compare::same_text(t, b"pass") {
        return ChainValue::PASS;
    }
    if text_compare::same_text(t, b"fail") {
        return ChainValue::FAIL;
    }
    0
}

// The chain value of a text without the space around it.
pub fn chain_value_of(v: &[u8]) -> u8
    ensures { result ≡ chain_value (trimmed v.now) }
{
    let w = white_end(v);
    let e = solid_end(&v[w..]);
    chain_value(&v[w..w + e])
}
