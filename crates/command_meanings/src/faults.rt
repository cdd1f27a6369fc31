// What is wrong with an entry of our own list that is known to be bad (01, Block and list).
ghost use Rattle.std.specs.Prelude.{◌≡◌, ◌+◌, take, drop};
ghost use Rattle.base_sequences.specs.Stored.{Clipped};
ghost use Rattle.text_write.specs.Phrases.{phrase};
ghost use Rattle.command_rules.specs.Messages.{feeds, feedless, until_feed, fault_at};
ghost use Rattle.command_meanings.specs.Internal.{faults};

use base_runs::ByteTest;
use ownlist_check::Entries;

// Any byte but LF.
#[derive(Drop)]
struct Feedless;

impl ByteTest for Feedless {
    ghost passes = { λ _. feedless };

    #[tactic(auto, unfolding(command_rules::specs::Messages::feedless))]
    fn passes(&self, b: u8) -> bool {
        b != b'\n'
    }
}

// How many LF there are.
fn feeds(s: &[u8]) -> usize
    ensures { result ≡ feeds s.now }
{
    s.iter().filter(|b| **b == b'\n').count()
}

// How many LF stand in front of a place: so many entries of the list were passed.
fn feeds_before(list: &[u8], place: usize) -> usize
    ensures { result ≡ feeds (take place list.now) }
{
    feeds(&list[..place.min(list.len())])
}

// The next LF, or the end.
fn feed_from(list: &[u8], at: usize) -> usize
    ensures { result ≡ at + until_feed (drop at list.now) }
{
    Feedless.run_end(list, at)
}

// The place of what is wrong with the entry that starts at a place, among the phrases of `put_fault`.
#[tactic(auto, unfolding(text_write::specs::Phrases::phrase, text_write::specs::Phrases::start, base_readers::specs::Readers::run, command_rules::specs::Messages::fault))]
fn fault_place(list: &[u8], place: usize) -> usize
    ensures { phrase result faults ≡ fault_at list.now place }
{
    if feeds_before(list, place) >= Entries::ENTRIES {
        return 0;
    }
    let end = feed_from(list, place);
    if end - place > Entries::LONGEST {
        return 1;
    }
    if end >= list.len() {
        return 2;
    }
    if end == place {
        return 3;
    }
    4
}

// What is wrong with the entry that starts at a place.
pub(crate) fn put_fault(list: &[u8], place: usize, out: &mut [u8], to: usize) -> usize
    ensures { Clipped out.old to (fault_at list.now place) out.new result }
{
    text_write::phrases::put_phrase(
        b"it is the 65th|it has more than 255 bytes|it does not end with LF|it is empty|it has a byte that may not stand there",
        fault_place(list, place),
        out,
        to,
    )
}
