// Numbers in decimal digits.
//
// `put_decimal` is handed a buffer and a place in it, any place. It stores as many of the digits as there is room for from there on, changes
// no other byte, and returns the place after all of them, at most the largest place, which no buffer reaches.
ghost use Rattle.base_sequences.specs.Stored.{Clipped};
ghost use Rattle.text_decimals_rules.specs.Decimals.{decimal};

// Writes a number: the digits of its tenth, and then its last one.
pub fn put_decimal(n: u64, out: &mut [u8], to: usize) -> usize
    ensures { Clipped out.old to (decimal n) out.new result }
{
    if n < 10 {
        return super::put_byte(b'0' + n as u8, out, to);
    }
    let at = put_decimal(n / 10, out, to);
    super::put_byte(b'0' + (n % 10) as u8, out, at)
}
