// Our own list of identifiers: its entries one after the other, and whether it is good (else number 5).
#![tactic(auto)]

ghost use Rattle.std.specs.Prelude.{◌≡◌, ◌+◌, drop};
ghost use Rattle.ownlist_rules.specs.OwnList.{entry, own_list};
ghost use Rattle.ownlist_check.specs.Steps.{fresh_entries, listed_at, checked_of};

// Where a walk over a list of our own stands, and how many entries it has passed.
#[derive(Drop)]
pub struct Entries {
    pub at: usize,
    pub count: usize,
}

impl Entries {
    // The most entries that a list may have.
    pub const ENTRIES: usize = 64;
    // The most bytes that an entry may have.
    pub const LONGEST: usize = 255;

    // A walk from the front.
    pub fn fresh() -> Entries
        ensures { result ≡ fresh_entries }
    {
        Entries { at: 0, count: 0 }
    }
}

// What stands at a place of such a walk: an entry from `start` up to its LF at `end`, the end, or a bad entry.
#[derive(Drop)]
pub enum Listed {
    Entry { start: usize, end: usize },
    End,
    Bad { place: usize },
}

// The end of an entry with its LF: the place itself where it is bad.
fn entry_end(s: &[u8], at: usize) -> usize
    ensures { result ≡ at + entry (drop at s.now) }
{
    let e = ownlist_entry::entry_text(s, at);
    if e == at {
        return at;
    }
    if e - at > Entries::LONGEST {
        return at;
    }
    if base_readers::is_at(s, e, 0, b'\n') {
        return e + 1;
    }
    at
}

// What stands at a place of a walk over a list.
pub fn next_entry(s: &[u8], w: Entries) -> Listed
    ensures { result ≡ listed_at s.now w }
{
    let at = w.at;
    let count = w.count;
    if s.len() <= at {
        return Listed::End;
    }
    let e = entry_end(s, at);
    if e == at {
        return Listed::Bad { place: at };
    }
    if count >= Entries::ENTRIES {
        return Listed::Bad { place: at };
    }
    Listed::Entry {
        start: at,
        end: e - 1,
    }
}

// Whether a list is good.
#[derive(Drop)]
pub enum Checked {
    Good,
    Bad { place: usize },
}

// Whether a list is good, or where its first bad entry starts. The walk goes on from what it reads, so there is no range to go over.
pub fn check_list(s: &[u8]) -> Checked
    ensures { result ≡ checked_of (own_list s.now) }
{
    let fresh = Entries::fresh();
    let mut at = fresh.at;
    let mut count = fresh.count;
    loop {
        match next_entry(s, Entries { at, count }) {
            Listed::Entry { start: _, end } => {
                at = end + 1;
                count += 1;
            }
            Listed::End => {
                return Checked::Good;
            }
            Listed::Bad { place } => {
                return Checked::Bad { place };
            }
        }
    }
}
