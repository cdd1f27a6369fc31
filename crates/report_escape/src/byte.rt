// A byte of a report's texts, escaped: `put_escape` writes it, or the percent sign and two digits.
//
// It is handed a buffer and a place in it, any place. It stores as much as there is room for from there on, changes no other byte, and returns
// the place after the whole, at most the largest place, which no buffer reaches.
ghost use Rattle.std.specs.Prelude.{◌≡◌, [], ◌∷◌, ◌%◌};
ghost use Rattle.base_sequences.specs.Stored.{Clipped};
ghost use Rattle.report_rules.specs.Report.{hex_digit, plain, escape};

// The upper-case hex digit of the lower half of a byte.
fn hex_digit(b: u8) -> u8
    ensures { result ≡ hex_digit (b % 16) }
{
    let n = b % 16;
    if n < 10 {
        return b'0' + n;
    }
    b'A' + (n - 10)
}

// Whether a byte stands for itself in a text.
fn is_plain(b: u8) -> bool
    ensures { result ≡ plain b }
{
    if b < 33 {
        return false;
    }
    if b > 126 {
        return false;
    }
    b != b'%'
}

// A byte, or the percent sign and the two digits that stand for it.
pub fn put_escape(b: u8, out: &mut [u8], to: usize) -> usize
    ensures { Clipped out.old to (escape (b ∷ [])) out.new result }
{
    if is_plain(b) {
        return text_write::put_byte(b, out, to);
    }
    let n = text_write::put_byte(b'%', out, to);
    let m = text_write::put_byte(hex_digit(b / 16), out, n);
    text_write::put_byte(hex_digit(b), out, m)
}
