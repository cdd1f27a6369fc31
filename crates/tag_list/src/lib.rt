// Tag lists as in DKIM (RFC 6376, 3.2).
//
//   list_at(seal, s, at)     the tag list of a seal, or else of a signature, from a place of a body on
//
// A name may stand once in a list. So the places of the names are put into a table: in order where they are few (`tag_list_ordered`), linked by
// buckets where they are many (linked.rt).
#![tactic(auto)]

ghost use Rattle.std.specs.Prelude.{◌≡◌, ◌≤◌, ◌<◌, length, replicate};
ghost use Rattle.lexis_rules.specs.Limits.{byte_limit};
ghost use Rattle.tag_names.specs.Names.{Named, bucket_of};
ghost use Rattle.tag_content.specs.Lists.{listed_at};
ghost use Rattle.tag_content.specs.Tests.{kept, is_held, CollectedIf, AttemptIf};
ghost use Rattle.tag_list.specs.Internal.{Links, Ends, SoughtAs};
ghost use Rattle.tag_list.specs.Lists.{listed_said};

use linked::Sought;
use tag_content::{Sound, Unread};

mod linked;

// Whether a tag's name is one of those that were read, or i.
fn sought(s: &[u8], table: &[u16], next: &[u16], last: usize, name: &[u8]) -> Sought
    requires { Links s.now table.now next.now last × Ends s.now table.now (bucket_of name.now) last × Named name.now }
    ensures { SoughtAs (is_held (kept s.now table.now last) name.now) result }
{
    if tag_names::is_named(name, 0, b"i") {
        return Sought::Taken;
    }
    linked::seek(s, table, next, last, name)
}

// Reads the tags from a place on, and puts their names into a table, linked by buckets.
fn collect_linked(
    s: &[u8],
    at: usize,
    table: &mut [u16],
    next: &mut [u16],
    heads: &mut [u16],
) -> Result<Sound, Unread>
    requires { (length s.now ≤ byte_limit) × (length next.old ≤ length table.old) × (length next.old < 65536) × (heads.old ≡ replicate 32768 0) }
    ensures { CollectedIf Unit s.now at table.new result }
{
    let mut i = at;
    let mut count: usize = 0;
    let mut cv: u8 = 0;
    while let Some(tag) = tag::tag_at(s, i) {
        let name = &s[tag.start..tag.name_end];
        let bucket = tag_names::bucket(name);
        match sought(s, table, next, usize::from(heads[bucket]), name) {
            Sought::Taken => {
                return Err(Unread::Unreadable);
            }
            Sought::Unsure => {
                return Err(Unread::Full);
            }
            Sought::Free => {
                if count >= next.len() {
                    return Err(Unread::Full);
                }
                linked::link(
                    table,
                    next,
                    heads,
                    count,
                    bucket,
                    tag_names::narrow(tag.start),
                );
                cv = tag_content::cv_after(cv, name, &s[tag.value_start..tag.value_end]);
                count += 1;
                i = tag.end;
            }
        }
    }
    tag_content::ended(s, i, count, cv)
}

// The tag list of a seal, or else of a signature, from a place on, with a table for its names linked by buckets.
fn try_linked(
    seal: bool,
    s: &[u8],
    at: usize,
    table: &mut [u16],
    next: &mut [u16],
    heads: &mut [u16],
) -> Result<u8, Unread>
    requires { (length s.now ≤ byte_limit) × (length next.old ≤ length table.old) × (length next.old < 65536) × (heads.old ≡ replicate 32768 0) }
    ensures { AttemptIf Unit seal s.now at result }
{
    let names = collect_linked(s, at, table, next, heads)?;
    tag_content::told(seal, s, &table[..names.count], names.cv)
}

// The tag list of a seal, or else of a signature, with room for every name that a body can hold: a tag has two bytes at least. The names are
// linked; where too many fall into one bucket, they are put in order.
fn list_of_many(seal: bool, s: &[u8], at: usize) -> Option<u8>
    requires { length s.now ≤ byte_limit }
    ensures { listed_said result ≡ listed_at seal s.now at }
{
    let mut table = [0u16; 16384];
    let mut next = [0u16; 16384];
    let mut heads = [0u16; 32768];
    match try_linked(seal, s, at, &mut table, &mut next, &mut heads) {
        Ok(cv) => Some(cv),
        Err(Unread::Unreadable) => None,
        Err(Unread::Full) => tag_list_ordered::try_list(seal, s, at, &mut heads).ok(),
    }
}

// The tag list of a seal, or else of a signature, with a table for some hundreds of tags first.
fn list_of_some(seal: bool, s: &[u8], at: usize) -> Option<u8>
    requires { length s.now ≤ byte_limit }
    ensures { listed_said result ≡ listed_at seal s.now at }
{
    let mut table = [0u16; 512];
    match tag_list_ordered::try_list(seal, s, at, &mut table) {
        Ok(cv) => Some(cv),
        Err(Unread::Unreadable) => None,
        Err(Unread::Full) => list_of_many(seal, s, at),
    }
}

// The tag list of a seal, or else of a signature. Most have few tags, so a small table is tried first; a long body of more tags has many, as a rule.
fn list_within(seal: bool, s: &[u8], at: usize) -> Option<u8>
    requires { length s.now ≤ byte_limit }
    ensures { listed_said result ≡ listed_at seal s.now at }
{
    let mut table = [0u16; 32];
    match tag_list_ordered::try_list(seal, s, at, &mut table) {
        Ok(cv) => Some(cv),
        Err(Unread::Unreadable) => None,
        Err(Unread::Full) => {
            if s.len() > 16384 {
                return list_of_many(seal, s, at);
            }
            list_of_some(seal, s, at)
        }
    }
}

// The tag list of a seal, or else of a signature, from a place of a body on; unreadable where the body is longer than one may be.
pub fn list_at(seal: bool, s: &[u8], at: usize) -> Option<u8>
    ensures { listed_said result ≡ listed_at seal s.now at }
{
    if lexis_limits::too_long(s) {
        return None;
    }
    list_within(seal, s, at)
}
