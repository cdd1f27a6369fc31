// A text without some of its parts: what stands side by side and is kept is copied at once.
//
// `put_unmarked(s, stops, marks, out, start)` takes s cut at `stops`, any places, and marks, any bytes. Of the parts, one after the other from the front, it writes those whose
// mark is 0 (also where there is no mark) from `start` on, as far as `out` reaches, and returns the place after all of them, at most the largest number.
#![tactic(auto)]

ghost use Rattle.base_sequences.specs.Stored.{Clipped};
ghost use Rattle.strip_copy.specs.Unmarked.{unmarked};

// Writes the parts of a text whose mark is 0, one after the other.
pub fn put_unmarked(s: &[u8], stops: &[usize], marks: &[u8], out: &mut [u8], start: usize) -> usize
    ensures { Clipped out.old start (unmarked s.now 0 0 stops.now marks.now) out.new result }
{
    let mut from: usize = 0;
    let mut at: usize = 0;
    let mut to = start;
    for (k, &stop) in stops.iter().enumerate() {
        if !base_readers::is_at(marks, k, 0, 0) {
            to = text_write::put_part(text_parts::part(s, from, at), out, to);
            from = stop;
        }
        at = stop;
    }
    text_write::put_part(text_parts::part(s, from, at), out, to)
}
