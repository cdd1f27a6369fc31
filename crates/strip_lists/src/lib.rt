// Which fields of a block go by our own list, which is checked and spelled first.
//
// `sift_listed(block, list, marks, stops)` keeps for each field of the block a mark, 1 if it goes, else 0, and where it ends, as far as there is room for these, and answers as
// `strip_fields::sift`: number and place, how many fields there are, and of those that go the bytes and how many they are. The numbers are
//   0  the walk came to the end: place 0
//   1  the block has more than 65,536 bytes: place 0
//   5  a bad list: the start of its first bad entry
//   2 to 4  of the walk over the block (`block`), with their places
// tried in this order. With 1 and 5 nothing is kept and all counts are 0.
#![tactic(auto)]

ghost use Rattle.std.specs.Prelude.{◌≡◌, ◌≤◌, length};
ghost use Rattle.base_readers.specs.Lines.{lines_of};
ghost use Rattle.block_rules.specs.Fields.{fields};
ghost use Rattle.ownlist_rules.specs.OwnList.{entry_limit};
ghost use Rattle.ownlist_rules.specs.Ends.{ends_of};
ghost use Rattle.ownlist_rules.specs.Spelled.{among_spelled};
ghost use Rattle.strip_fields.specs.Sifting.{Sifts};
ghost use Rattle.strip_lists.specs.Walk.{listed_by, fields_by};

use ownlist_check::Entries;
use ownlist_lines::Lines;
use ownlist_ready::Ready;
use strip_fields::Sifted;

// Goes over the block by our own list as it is compared. Where its lines end is found once, for all fields.
fn sift_lines(s: &[u8], own: &[u8], marks: &mut [u8], stops: &mut [usize]) -> Sifted
    requires { length (ends_of own.now) ≤ entry_limit }
    ensures { Sifts (among_spelled (lines_of own.now)) (fields s.now) marks.old stops.old marks.new stops.new result }
{
    let mut ends = [0usize; Entries::ENTRIES];
    let n = ownlist_lines::ends::line_ends(own, &mut ends);
    let lines = Lines {
        own,
        ends: &ends[..n],
    };
    strip_fields::sift(s, &lines, marks, stops)
}

// Goes over the block by a list that has to be spelled first.
fn sift_spelled(s: &[u8], list: &[u8], marks: &mut [u8], stops: &mut [usize]) -> Sifted
    ensures { Sifts (listed_by list.now) (fields s.now) marks.old stops.old marks.new stops.new result }
{
    let mut own = ownlist_spelled::room::spelled();
    let n = ownlist_spelled::spell_list(list, &mut own);
    sift_lines(s, &own[..n], marks, stops)
}

// What was not gone over.
fn unsifted(number: u8, place: usize) -> Sifted
    ensures { result ≡ record { number = number; place = place; count = 0; removed = 0; fields = 0 } }
{
    Sifted {
        number,
        place,
        count: 0,
        removed: 0,
        fields: 0,
    }
}

// Goes over the block where neither it nor the list is refused: 1, 5, then 2 to 4. A list without two hyphens in a row is compared as it stands; any other is spelled once, for all
// fields.
pub fn sift_listed(s: &[u8], list: &[u8], marks: &mut [u8], stops: &mut [usize]) -> Sifted
    ensures { Sifts (listed_by list.now) (fields_by s.now list.now) marks.old stops.old marks.new stops.new result }
{
    match ownlist_ready::readiness(s, list) {
        Ready::Refused { number, place } => unsifted(number, place),
        Ready::AsItStands => sift_lines(s, list, marks, stops),
        Ready::ToSpell => sift_spelled(s, list, marks, stops),
    }
}
