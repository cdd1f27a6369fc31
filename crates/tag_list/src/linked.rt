// The names of the tags that were read, in order of reading, each linked to the one before it of the same bucket: in a list of thousands of
// tags a name is compared with one or two others.
//
// A name is kept as the place of its first byte in the body. Links count from 1, so that 0 is the end: `heads` has the last name of each
// bucket, and `next` the one before each.
ghost use Rattle.std.specs.Prelude.{◌≡◌, ◌+◌, ◌<◌, length, get_or, set};
ghost use Rattle.tag_names.specs.Names.{Named, holds, bucket_of};
ghost use Rattle.tag_content.specs.Tests.{kept};
ghost use Rattle.tag_list.specs.Internal.{Links, Ends, SoughtAs};

// Whether a name is linked; unsure where too many of its bucket are. These are three answers, which no Option has.
#[derive(Clone, Copy)]
pub(crate) enum Sought {
    Taken,
    Free,
    Unsure,
}

// Looks for a name among the first `last`, from the last on along the links of its bucket. A list can be made whose names fall into one bucket:
// so no more than 16 are compared.
pub(crate) fn seek(s: &[u8], table: &[u16], next: &[u16], last: usize, name: &[u8]) -> Sought
    requires { Links s.now table.now next.now last × Ends s.now table.now (bucket_of name.now) last × Named name.now }
    ensures { SoughtAs (holds (kept s.now table.now last) name.now) result }
{
    let mut c = last;
    for _ in 0..16 {
        if c == 0 {
            return Sought::Free;
        }
        if tag_names::is_named(s, usize::from(table[c - 1]), name) {
            return Sought::Taken;
        }
        c = usize::from(next[c - 1]);
    }
    if c > 0 {
        return Sought::Unsure;
    }
    Sought::Free
}

// Puts a place behind the first `count`, and links it into its bucket.
pub(crate) fn link(
    table: &mut [u16],
    next: &mut [u16],
    heads: &mut [u16],
    count: usize,
    bucket: usize,
    place: u16,
)
    requires { (count < length table.old) × (count < length next.old) × (bucket < length heads.old) × (count + 1 < 65536) }
    ensures table_after { table.new ≡ set table.old count place }
    ensures next_after { next.new ≡ set next.old count (get_or heads.old bucket 0) }
    ensures heads_after { heads.new ≡ set heads.old bucket (count + 1) }
{
    table[count] = place;
    next[count] = heads[bucket];
    heads[bucket] = tag_names::narrow(count + 1);
}
