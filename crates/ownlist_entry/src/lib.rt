// The text of an entry of our own list, at any place of a slice, also past its end: the place after it, or the place itself where there is none.
#![tactic(auto)]

ghost use Rattle.std.specs.Prelude.{◌≡◌, ◌+◌, drop};
ghost use Rattle.ownlist_rules.specs.OwnList.{entry_text};

use lexis_rules::Class;

mod utf8;
mod visible;

// The end of the text of an entry: each turn passes a run of visible bytes, and then a sequence of UTF-8, as far as these reach, so there is no range to
// go over.
fn text_from(s: &[u8], at: usize) -> usize
    ensures { result ≡ at + entry_text (drop at s.now) }
{
    let mut i = at;
    loop {
        let e = lexis_classes::run_end(s, i, Class::Visible);
        let Some(n) = utf8::sequence_at(s, e) else {
            return e;
        };
        i = e + n;
    }
}

// The end of the text of an entry; one of ASCII alone ends with its first run.
pub fn entry_text(s: &[u8], at: usize) -> usize
    ensures { result ≡ at + entry_text (drop at s.now) }
{
    let e = visible::visible_end(s, at);
    if base_readers::byte(s, e, 0) < 128 {
        return e;
    }
    text_from(s, e)
}
