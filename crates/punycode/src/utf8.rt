// UTF-8 (RFC 3629): the numbers that it encodes, and code points written.
ghost use Rattle.std.specs.Prelude.{◌≡◌, true, ◌+◌, ◌*◌, ◌<◌, ◌≤◌, length};
ghost use Rattle.base_sequences.specs.Stored.{Put};
ghost use Rattle.punycode_rules.specs.Unicode.{scalars, utf8, utf8s};
ghost use Rattle.punycode_rules.specs.Labels.{spelling_limit};

// Writes a code point in UTF-8.
fn put_point(x: u32, out: &mut [u8], to: usize) -> usize
    requires { (x < 1114112) × (to ≤ 8 * spelling_limit) }
    ensures { Put out.old to (utf8 x) out.new result }
{
    if x < 0x80 {
        text_write::put_byte(x as u8, out, to);
        return 1;
    }
    if x < 0x800 {
        text_write::put_byte((0xC0 + x / 64) as u8, out, to);
        text_write::put_byte((0x80 + x % 64) as u8, out, to + 1);
        return 2;
    }
    if x < 0x10000 {
        text_write::put_byte((0xE0 + x / 4096) as u8, out, to);
        text_write::put_byte((0x80 + x / 64 % 64) as u8, out, to + 1);
        text_write::put_byte((0x80 + x % 64) as u8, out, to + 2);
        return 3;
    }
    text_write::put_byte((0xF0 + x / 262144) as u8, out, to);
    text_write::put_byte((0x80 + x / 4096 % 64) as u8, out, to + 1);
    text_write::put_byte((0x80 + x / 64 % 64) as u8, out, to + 2);
    text_write::put_byte((0x80 + x % 64) as u8, out, to + 3);
    4
}

// Writes code points in UTF-8.
pub(crate) fn put_points(points: &[u32], out: &mut [u8], to: usize) -> usize
    requires { (length points.now ≤ spelling_limit) × (to ≤ spelling_limit + 1) × (scalars points.now ≡ true) }
    ensures { Put out.old to (utf8s points.now) out.new result }
{
    let mut n: usize = 0;
    for x in points {
        n += put_point(*x, out, to + n);
    }
    n
}
