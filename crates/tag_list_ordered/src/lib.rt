// Tag lists as in DKIM (RFC 6376, 3.2), with the names of their tags in a table in order.
//
//   try_list(seal, s, at, table)     the tag list of a seal, or else of a signature, from a place of a body on, or that the table is full
//
// A name may stand once in a list. So the places of the names are put into a table, in order (seen.rt).
#![tactic(auto)]

ghost use Rattle.std.specs.Prelude.{◌≡◌, ◌≤◌, ◌<◌, length, replicate};
ghost use Rattle.lexis_rules.specs.Limits.{byte_limit};
ghost use Rattle.tag_names.specs.Names.{Named};
ghost use Rattle.tag_content.specs.Lists.{tags_at};
ghost use Rattle.tag_content.specs.Tests.{kept, CollectedIf, AttemptIf};
ghost use Rattle.tag_list_ordered.specs.Internal.{Kept, slot_of};

use tag_content::{Sound, Unread};

mod seen;

// Where a tag's name would stand among those that were read; none where it is one of them, or i.
fn slot_of(s: &[u8], table: &[u16], count: usize, name: &[u8]) -> Option<usize>
    requires { Kept s.now table.now count × Named name.now }
    ensures { result ≡ slot_of (kept s.now table.now count) name.now }
{
    if tag_names::is_named(name, 0, b"i") {
        return None;
    }
    seen::find(s, table, count, name)
}

// Reads the tags from a place on, and puts their names into a table, in order.
fn collect(s: &[u8], at: usize, table: &mut [u16]) -> Result<Sound, Unread>
    requires { length s.now ≤ byte_limit }
    ensures { CollectedIf (length table.old < length (tags_at s.now at)) s.now at table.new result }
{
    let mut i = at;
    let mut count: usize = 0;
    let mut cv: u8 = 0;
    while let Some(tag) = tag::tag_at(s, i) {
        let name = &s[tag.start..tag.name_end];
        let Some(slot) = slot_of(s, table, count, name) else {
            return Err(Unread::Unreadable);
        };
        if count >= table.len() {
            return Err(Unread::Full);
        }
        seen::insert(table, count, slot, tag_names::narrow(tag.start));
        cv = tag_content::cv_after(cv, name, &s[tag.value_start..tag.value_end]);
        count += 1;
        i = tag.end;
    }
    tag_content::ended(s, i, count, cv)
}

// The tag list of a seal, or else of a signature, from a place on, with a table for its names in order; unreadable where the body is longer than
// one may be.
fn read_list(seal: bool, s: &[u8], at: usize, table: &mut [u16]) -> Result<u8, Unread>
    ensures { AttemptIf (length table.old < length (tags_at s.now at)) seal s.now at result }
{
    if lexis_limits::too_long(s) {
        return Err(Unread::Unreadable);
    }
    let names = collect(s, at, table)?;
    tag_content::told(seal, s, &table[..names.count], names.cv)
}

// The tag list of a seal, or else of a signature, from a place on, with a table for its names, which is left all zeros. It is full where the list has more
// tags than the table has entries.
pub fn try_list(seal: bool, s: &[u8], at: usize, table: &mut [u16]) -> Result<u8, Unread>
    ensures attempt_if { AttemptIf (length table.old < length (tags_at s.now at)) seal s.now at result }
    ensures table_after { table.new ≡ replicate (length table.old) 0 }
{
    let answer = read_list(seal, s, at, table);
    table.fill(0);
    answer
}
