// Whether a text is one of the lines of our own list.
#![tactic(auto)]

ghost use Rattle.std.specs.Prelude.{◌≡◌, ◌≤◌, min, length};
ghost use Rattle.base_sequences.specs.Spans.{span};
ghost use Rattle.lexis_rules.specs.Bytes.{alike};
ghost use Rattle.ownlist_rules.specs.Spelled.{among_lines};
ghost use Rattle.ownlist_lines.specs.Lines.{lines_in};

pub mod ends;

// A list as it is compared, with the places where its lines end. Any places are taken for ends.
#[derive(Clone, Copy)]
pub struct Lines<'a> {
    pub own: &'a [u8],
    pub ends: &'a [usize],
}

// Whether a text equals the bytes from a up to e but for ASCII case. The lengths are compared first: most lines have another one.
fn is_span(own: &[u8], a: usize, e: usize, text: &[u8]) -> bool
    requires { e ≤ length own.now }
    ensures { result ≡ alike (span own.now a e) text.now }
{
    if base_readers::rest(e, a) != text.len() {
        return false;
    }
    if e <= a {
        return true;
    }
    text_compare::same_text(&own[a..e], text)
}

// The end of a line, at most the end of the bytes.
fn end_within(own: &[u8], end: usize) -> usize
    ensures { result ≡ min end (length own.now) }
{
    match own.get(end) {
        Some(_) => end,
        None => own.len(),
    }
}

// Whether a text equals a line but for ASCII case.
pub fn is_line(lines: &Lines<'_>, text: &[u8]) -> bool
    ensures { result ≡ among_lines (lines_in lines.now) text.now }
{
    let own = lines.own;
    let mut at: usize = 0;
    for &end in lines.ends {
        let e = end_within(own, end);
        if is_span(own, at, e, text) {
            return true;
        }
        at = e + 1; // behind the LF
    }
    false
}
