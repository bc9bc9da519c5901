// The words of a line, and the numbers and bytes that they spell.
ghost use Rattle.std.specs.Prelude.{◌≤◌, ◌<◌, length};

// ---- parts of a line

// What is before the first b of s; all of s if it has none.
pub(crate) fn cut_before(s: &[u8], b: u8) -> &[u8] {
    s.split(|x| *x == b).next().unwrap_or(s)
}

// What is after the first b of s; nothing if it has none.
pub(crate) fn cut_after(s: &[u8], b: u8) -> &[u8] {
    s.splitn(2, |x| *x == b).nth(1).unwrap_or(&[])
}

// The words of s, each without the space after it; an empty one after a space at the end.
pub(crate) fn first_word(s: &[u8]) -> &[u8] {
    cut_before(s, b' ')
}

// What is after the first word of s.
pub(crate) fn skip_word(s: &[u8]) -> &[u8] {
    cut_after(s, b' ')
}

// The last word of s.
pub(crate) fn last_word(s: &[u8]) -> &[u8] {
    s.rsplit(|x| *x == b' ').next().unwrap_or(s)
}

// ---- bytes

// The value of a hex digit; 0 for another byte.
fn parse_digit(b: u8) -> u8
    ensures { result < 16 }
{
    match b {
        b'0'..=b'9' => b - b'0',
        b'a'..=b'f' => b - b'a' + 10,
        _ => 0,
    }
}

// The bytes that s spells in hex, as many as fit into the space.
pub(crate) fn parse_hex<'a>(s: &[u8], space: &'a mut [u8]) -> &'a [u8]
    ensures { length result.now ≤ length space.old }
{
    let n = space.len().min(s.len() / 2);
    for (byte, pair) in space.iter_mut().zip(s.chunks_exact(2)) {
        *byte = parse_digit(pair[0]) * 16 + parse_digit(pair[1]);
    }
    &space[..n]
}

// ---- numbers

// The number that the first word of s spells, at most 2^64-1.
pub(crate) fn parse_number(s: &[u8]) -> usize {
    first_word(s).iter().fold(0usize, |n, digit| {
        n.saturating_mul(10)
            .saturating_add(parse_digit(*digit) as usize)
    })
}

// The number of s, at most 2^32-1.
pub(crate) fn parse_number32(s: &[u8]) -> u32 {
    parse_number(s).min(u32::MAX as usize) as u32
}

// The number of s, at most 2^63-1; -n for a minus sign and a number n, at least -2^63.
pub(crate) fn parse_integer(s: &[u8]) -> i64 {
    let most = i64::MAX as usize;
    match parse_number(cut_after(s, b'-')) {
        0 => parse_number(s).min(most) as i64,
        n => -1 - (n - 1).min(most) as i64,
    }
}
