// The names of the tags that were read, kept in order, so that a name is found among them by halving.
//
// A name is kept as the place of its first byte in the body. The first `count` entries of a table are in use.
ghost use Rattle.std.specs.Prelude.{◌≡◌, ◌≤◌, ◌<◌, length};
ghost use Rattle.tag_names.specs.Names.{Named};
ghost use Rattle.tag_content.specs.Tests.{kept};
ghost use Rattle.tag_list_ordered.specs.Internal.{Kept, slot_for, inserted_at};

use std::cmp::Ordering;

// Where a name would stand in a table; none where it stands there.
pub(crate) fn find(s: &[u8], table: &[u16], count: usize, name: &[u8]) -> Option<usize>
    requires { Kept s.now table.now count × Named name.now }
    ensures { result ≡ slot_for 0 (kept s.now table.now count) name.now }
{
    let mut lo: usize = 0;
    let mut hi = count;
    while lo < hi {
        let mid = lo + (hi - lo) / 2;
        match tag_names::compare(s, usize::from(table[mid]), name) {
            Ordering::Less => {
                lo = mid + 1;
            }
            Ordering::Equal => {
                return None;
            }
            Ordering::Greater => {
                hi = mid;
            }
        }
    }
    Some(lo)
}

// Puts a place into a table before the entry `at`.
pub(crate) fn insert(table: &mut [u16], count: usize, at: usize, place: u16)
    requires { (at ≤ count) × (count < length table.old) }
    ensures { table.new ≡ inserted_at at count place table.old }
{
    // A value is carried on from place to place: of the library's `copy_within` the compiler makes a call of `memmove`.
    let mut carried = place;
    for j in at..count + 1 {
        let next = table[j];
        table[j] = carried;
        carried = next;
    }
}
