// One of several phrases that stand in one text, with a bar between each and the next: `none|failed|built`.
//
// `put_phrase(all, n, out, to)` writes the phrase with this number, from 0 on; the last one, where there are not so many. It stores as much of
// it as there is room for in `out` from `to` on, changes no other byte, and returns the place after the whole phrase, at most the largest place,
// which no buffer reaches. A function with one text is checked much faster than one with a text in each of its arms.
ghost use Rattle.std.specs.Prelude.{◌≡◌, ◌+◌, drop};
ghost use Rattle.base_sequences.specs.Stored.{Clipped};
ghost use Rattle.base_readers.specs.Readers.{run};
ghost use Rattle.text_write.specs.Phrases.{in_phrase, start, phrase};

use base_runs::ByteTest;

// The bytes of a phrase.
#[derive(Drop)]
struct InPhrase;

impl ByteTest for InPhrase {
    ghost passes = { λ t. in_phrase };

    fn passes(&self, b: u8) -> bool {
        b != b'|'
    }
}

// The place where a phrase starts.
fn start(all: &[u8], n: usize) -> usize
    ensures { result ≡ start n all.now }
{
    let mut at: usize = 0;
    for _ in 0..n {
        let bar = InPhrase.run_end(all, at);
        if bar >= all.len() {
            return at;
        }
        at = bar + 1;
    }
    at
}

// Writes a phrase.
pub fn put_phrase(all: &[u8], n: usize, out: &mut [u8], to: usize) -> usize
    ensures { Clipped out.old to (phrase n all.now) out.new result }
{
    let at = start(all, n);
    let end = InPhrase.run_end(all, at);
    super::put_part(&all[at..end], out, to)
}
