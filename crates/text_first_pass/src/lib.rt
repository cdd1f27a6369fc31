// A text that a first pass made in a buffer of its own, and how it gets into a lent one.
//
// Nothing may be written into a lent buffer before it is known that all of a text is good and fits. So a first pass makes it in a buffer of its own,
// as far as that reaches, and tells how long it is; `copy_first(first, size, out)` is handed that buffer and the length, any length. `Short`: the lent
// buffer has no room for all of it. `Again`: it has, and the first one had not, so that a second pass has to write it. Both write nothing. `Done`: it
// was copied over the front of the lent buffer.
#![tactic(auto)]

ghost use Rattle.std.specs.Prelude.{◌≡◌, length};
ghost use Rattle.text_first_pass.specs.Copies.{copy_of, copy_leaves};

// What became of the text of a first pass.
#[derive(Drop)]
pub enum Copy {
    Short,
    Again,
    Done,
}

// Copies a text of so many bytes where both buffers have room for all of it.
pub fn copy_first(first: &[u8], size: usize, out: &mut [u8]) -> Copy
    ensures value { result ≡ copy_of (length first.now) size (length out.old) }
    ensures out_after { out.new ≡ copy_leaves result first.now size out.old }
{
    if size > out.len() {
        return Copy::Short;
    }
    if size > first.len() {
        return Copy::Again;
    }
    text_write::put_text(&first[..size], out, 0);
    Copy::Done
}
