// Comments, one inside the other: `comment_end` answers where one ends.
//
// It is handed a slice and a place, any place, also past the end, and answers the place itself where no comment starts there.
#![tactic(auto)]

ghost use Rattle.std.specs.Prelude.{◌≡◌, ◌+◌, drop};
ghost use Rattle.lexis_rules.specs.Limits.{depth_limit};
ghost use Rattle.lexis_comments.specs.Internal.{fresh_at};
ghost use Rattle.lexis_rules.specs.Pieces.{comment, content};

use lexis_rules::Class;

mod plain;

// A place of a slice, and how many comments may still open there, one inside the other.
#[derive(Drop)]
struct Cursor {
    at: usize,
    depth: usize,
}

impl Cursor {
    // The most comments that may stand one inside the other.
    const DEPTH: usize = 16;

    // A cursor at a place outside of any comment.
    fn fresh(at: usize) -> Cursor
        ensures { result ≡ fresh_at at }
    {
        Cursor {
            at,
            depth: Cursor::DEPTH,
        }
    }
}

// The comment at a cursor. It and what it holds call each other: the depth that is left falls, so that at most 2 * DEPTH + 1 of these
// calls are open at once, whatever the input.
#[cycle(comment_from_content_from)]
fn comment_from(s: &[u8], c: Cursor) -> usize
    ensures { result ≡ c.at + comment c.depth (drop c.at s.now) }
{
    let at = c.at;
    let depth = c.depth;
    if depth == 0 {
        return at;
    }
    if base_readers::is_at(s, at, 0, b'(') {
        let e = content_from(
            s,
            Cursor {
                at: at + 1,
                depth: depth - 1,
            },
        );
        if base_readers::is_at(s, e, 0, b')') {
            return e + 1;
        }
    }
    at
}

// What a comment holds, at a cursor behind its "(". The bytes of one comment are a loop: each turn passes a run of plain bytes, and then
// a comment inside or another item. How far a turn goes is what it reads, so there is no range to go over.
#[cycle(comment_from_content_from)]
fn content_from(s: &[u8], c: Cursor) -> usize
    ensures { result ≡ c.at + content c.depth Class.Comment (drop c.at s.now) }
{
    let depth = c.depth;
    let mut i = c.at;
    loop {
        let e = plain::plain_end(s, i);
        if base_readers::is_at(s, e, 0, b'(') {
            let f = comment_from(s, Cursor { at: e, depth });
            if f == e {
                return e;
            }
            i = f;
        } else {
            let n = lexis_classes::item_at(s, e, Class::Comment);
            if n == 0 {
                return e;
            }
            i = e + n;
        }
    }
}

// The end of a comment.
pub fn comment_end(s: &[u8], at: usize) -> usize
    ensures { result ≡ at + comment depth_limit (drop at s.now) }
{
    comment_from(s, Cursor::fresh(at))
}
