// The texts of quoted strings, written: as much as there is room for from a place on. The length of the whole text is returned.
#![tactic(auto)]

ghost use Rattle.std.specs.Prelude.{◌≡◌, ◌+◌, drop, set};
ghost use Rattle.base_sequences.specs.Stored.{Put};
ghost use Rattle.lexis_rules.specs.Bytes.{in_class};
ghost use Rattle.lexis_rules.specs.declared.Class.TheVariants.{Quoted};
ghost use Rattle.lexis_rules.specs.Words.{quoted_text};

use base_runs::ByteTest;
use lexis_rules::Class;

// Stores a byte n places past `to`, where there is such a place.
fn store(out: &mut [u8], to: usize, n: usize, b: u8)
    ensures { out.new ≡ set out.old (to + n) b }
{
    text_write::put_byte(b, out, to.saturating_add(n));
}

// Stores as much of a text as there is room for n places past `to`, and returns its length.
fn store_run(part: &[u8], out: &mut [u8], to: usize, n: usize) -> usize
    ensures { Put out.old (to + n) part.now out.new result }
{
    text_write::put_text(part, out, to.saturating_add(n))
}

// The place after the opening quote.
fn inside(s: &[u8], at: usize) -> usize
    ensures { drop result s.now ≡ drop 1 (drop at s.now) }
{
    at.saturating_add(1)
}

// The bytes that stand for themselves in a quoted string. Those that may not are told by a few compares.
#[derive(Drop)]
struct Plain;

impl ByteTest for Plain {
    ghost passes = { λ t. in_class Quoted };

    fn passes(&self, b: u8) -> bool {
        lexis_classes::in_class(Class::Quoted, b)
    }

    fn may_fail(&self, b: u8) -> bool {
        (b < 32) | (b == b'"') | (b == b'\\') | (b == 127)
    }

    // By the table.
    fn run_end(&self, s: &[u8], at: usize) -> usize {
        lexis_table::run_end(s, at, Class::Quoted)
    }
}

// Writes the text of the quoted string that starts at a place: bytes that stand for themselves in runs, any other item by its last byte. The
// first byte is tested alone, so that pairs and folds cost no wide test. How far a turn goes is what it reads, so there is no range to go over.
pub fn put_quoted(s: &[u8], at: usize, out: &mut [u8], to: usize) -> usize
    ensures { Put out.old to (quoted_text (drop at s.now)) out.new result }
{
    let mut i = inside(s, at);
    let mut n: usize = 0;
    loop {
        if Plain.may_fail(base_readers::byte(s, i, 0)) {
            let k = lexis_classes::item_at(s, i, Class::Quoted);
            if k == 0 {
                return n;
            }
            store(out, to, n, base_readers::byte(s, i, k - 1));
            n += 1;
            i += k;
        } else {
            let e = base_runs::wide_run_end::<16, _>(s, i, &Plain);
            n += store_run(&s[i..e], out, to, n);
            i = e;
        }
    }
}
