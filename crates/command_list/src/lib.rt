// What is noticed of our own list, and how its entries are compared, written into a lent buffer.
//
//   put_notes(list, out, to)            what `strip`, `report` and `explain` say of a list on standard error (`notes_of` in command_list_rules)
//   put_check(spelled, list, out, to)   what `check` says of a good list, where `spelled` is the list as it is compared (`ownlist_spelled::spell_list`)
//
// A writer stores as much of its text as there is room for in `out` from `to` on, changes no other byte, and returns the place after the whole text, at
// most the largest place, which no buffer reaches. Every byte of an entry is written as in a report, so none can end a line.
#![tactic(auto)]

ghost use Rattle.std.specs.Prelude.{◌++◌};
ghost use Rattle.base_sequences.specs.Stored.{Clipped};
ghost use Rattle.base_readers.specs.Lines.{lines_of};
ghost use Rattle.command_list_rules.specs.declared.Said.TheVariants.{Compared};
ghost use Rattle.command_list_rules.specs.Notices.{lines_from, notices, notes, notes_of};

use command_list_rules::Said;
use ownlist_check::Checked;

mod entry;

// The lines of a kind, one for each line of `s`.
fn put_lines(k: Said, s: &[u8], out: &mut [u8], to: usize) -> usize
    ensures { Clipped out.old to (lines_from k 0 (lines_of s.now)) out.new result }
{
    let mut n = to;
    let mut rest = s;
    let mut count: usize = 0;
    while let Some((line, behind)) = explain::split_line(rest) {
        count += 1;
        n = entry::put_line(k, count, line, out, n);
        rest = behind;
    }
    n
}

// What is noticed of a good list.
fn put_notices(list: &[u8], out: &mut [u8], to: usize) -> usize
    ensures { Clipped out.old to (notices list.now) out.new result }
{
    if list.len() == 0 {
        return text_write::put_part(
            b"the list is empty: nothing in our name can be removed\n",
            out,
            to,
        );
    }
    put_lines(Said::Noticed, list, out, to)
}

// The same, for standard error.
fn put_good_notes(list: &[u8], out: &mut [u8], to: usize) -> usize
    ensures { Clipped out.old to (notes list.now) out.new result }
{
    if list.len() == 0 {
        return text_write::put_part(
            b"orbendash: note: the list is empty: nothing in our name can be removed\n",
            out,
            to,
        );
    }
    put_lines(Said::Noted, list, out, to)
}

// What is said of a list on standard error: of a bad one nothing.
pub fn put_notes(list: &[u8], out: &mut [u8], to: usize) -> usize
    ensures { Clipped out.old to (notes_of list.now) out.new result }
{
    match ownlist_check::check_list(list) {
        Checked::Good => put_good_notes(list, out, to),
        Checked::Bad { place: _ } => to,
    }
}

// How each entry of a list is compared, by its lines as they are compared, and then what is noticed of it.
pub fn put_check(spelled: &[u8], list: &[u8], out: &mut [u8], to: usize) -> usize
    ensures { Clipped out.old to (lines_from Compared 0 (lines_of spelled.now) ++ notices list.now) out.new result }
{
    let a = put_lines(Said::Compared, spelled, out, to);
    put_notices(list, out, a)
}
