// What is known of a tag list while its tags are read, and what it says when they have been, whatever table their names are in.
//
//   cv_after(cv, name, value)        the chain value behind one tag more
//   ended(s, at, count, cv)          what a list is that has so many tags up to a place
//   told(seal, s, places, cv)        what the names of a sound list say, for a seal or else for a signature
#![tactic(auto)]

ghost use Rattle.std.specs.Prelude.{◌≡◌};
ghost use Rattle.tag_content.specs.Tests.{cv_after, ended_at, attempt_if, told_at};

mod chain;

// The chain value so far, or that of this tag if its name is cv.
pub fn cv_after(cv: u8, name: &[u8], value: &[u8]) -> u8
    ensures { result ≡ cv_after cv name.now value.now }
{
    if tag_names::is_named(name, 0, b"cv") {
        return chain::chain_value_of(value);
    }
    cv
}

// A sound tag list whose names are in the first `count` entries of a table, with the chain value that it says.
#[derive(Clone, Copy)]
pub struct Sound {
    pub count: usize,
    pub cv: u8,
}

// Why a tag list isn't read: it is not well-formed, has a name twice, has a second i or lacks a tag that it needs; or the table can't tell.
#[derive(Clone, Copy)]
pub enum Unread {
    Unreadable,
    Full,
}

// Tags up to the end of the body.
pub fn ended(s: &[u8], at: usize, count: usize, cv: u8) -> Result<Sound, Unread>
    ensures { result ≡ ended_at s.now at count cv }
{
    if at >= s.len() {
        return Ok(Sound { count, cv });
    }
    Err(Unread::Unreadable)
}

fn attempt_if(readable: bool, cv: u8) -> Result<u8, Unread>
    ensures { result ≡ attempt_if readable cv }
{
    if readable {
        return Ok(cv);
    }
    Err(Unread::Unreadable)
}

// What the names of a sound list say, by their places: a seal's chain value, and 0 for a signature.
pub fn told(seal: bool, s: &[u8], places: &[u16], cv: u8) -> Result<u8, Unread>
    ensures { result ≡ told_at seal s.now places.now cv }
{
    if seal {
        return attempt_if(tag_names::required::is_seal(s, places, cv), cv);
    }
    attempt_if(tag_names::required::is_signature(s, places), 0)
}
