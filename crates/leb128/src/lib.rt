// LEB128 numbers of up to 64 bits (document 01, "Row of a file"), written in the shortest form, and read in that form only or in any.
#![tactic(auto)]

ghost use Rattle.std.specs.Prelude.{◌≡◌, ◌+◌, ◌*◌, ◌≤◌, ◌<◌, ◌^◌, ◌↔◌, length, unwrap_or, IsSome};
ghost use Rattle.prelude.specs.Answer.{measured};
ghost use Rattle.prelude.specs.Bytes.{store, stored, Put};
ghost use Rattle.leb128.specs.Leb.{put, least_of, get};
ghost use Rattle.leb128.specs.Answers.{answer_of};
ghost use Rattle.leb128.specs.Internal.{last, tenth};

use error::ErrorKind;

// Which numbers are read (document 02, W-203); one choice a call.
#[derive(Clone, Copy)]
pub enum Mode {
    // Those in their shortest form; others are OVERLONG.
    Strict,
    // Also those in more bytes than they need, up to ten.
    Tolerant,
}

// A number that was read, and how many bytes are left after it.
#[derive(Clone, Copy)]
pub struct Number {
    pub value: u64,
    pub left: usize,
}

// A last byte of 0 after others: the number has more bytes than it needs.
#[tactic(auto, unfolding(crate::specs::Internal::last))]
fn padded(left: usize, mode: Mode) -> Result<Number, ErrorKind>
    ensures { answer_of result ≡ last (least_of mode) 0 left }
{
    match mode {
        // OVERLONG
        Mode::Strict => Err(ErrorKind::Overlong),
        Mode::Tolerant => Ok(Number { value: 0, left }),
    }
}

// A last byte after others. The mode is looked at only if it is 0, which is rare.
fn last_byte(b: u8, left: usize, mode: Mode) -> Result<Number, ErrorKind>
    ensures { answer_of result ≡ last (least_of mode) b left }
{
    if b < 1 {
        return padded(left, mode);
    }
    Ok(Number {
        value: u64::from(b),
        left,
    })
}

// The tenth byte.
fn tenth_byte(b: u8, left: usize, mode: Mode) -> Result<Number, ErrorKind>
    ensures { answer_of result ≡ tenth (least_of mode) b left }
{
    // RANGE: it is over 1
    if 1 < b {
        return Err(ErrorKind::Range);
    }
    last_byte(b, left, mode)
}

// The number `high` times `unit`, plus `low`.
fn with_low(low: u8, unit: u64, high: Number) -> Number
    requires { low + unit * high.value < 2 ^ 64 }
    ensures { result ≡ record high { value = low + unit * high.value } }
{
    Number {
        value: u64::from(low) + unit * high.value,
        ..high
    }
}

// Reads the rest of a number after a continuation byte: a byte, and at most k after it, which it calls itself on.
fn get_from(tail: &[u8], k: usize, mode: Mode) -> Result<Number, ErrorKind>
    requires { k ≤ 8 }
    ensures { answer_of result ≡ measured (get mode k (least_of mode) tail.now) }
{
    // TRUNC: a byte is wanted at the end
    let (&b, rest) = tail.split_first().ok_or(ErrorKind::Trunc)?;
    let left = rest.len();
    if k == 0 {
        return tenth_byte(b, left, mode);
    }
    if b < 128 {
        return last_byte(b, left, mode);
    }
    Ok(with_low(b % 128, 128, get_from(rest, k - 1, mode)?))
}

// Reads the number at the front of s, of at most ten bytes. A number of one byte is read here, in code that is short
// enough to be inlined; after a continuation byte `get_from` reads the rest.
pub fn get(s: &[u8], mode: Mode) -> Result<Number, ErrorKind>
    ensures { answer_of result ≡ measured (get mode 9 0 s.now) }
{
    // TRUNC: the first byte is wanted at the end
    let (&b, rest) = s.split_first().ok_or(ErrorKind::Trunc)?;
    if b < 128 {
        return Ok(Number {
            value: u64::from(b),
            left: rest.len(),
        });
    }
    Ok(with_low(b % 128, 128, get_from(rest, 8, mode)?))
}

// How many bytes n takes.
pub fn size(n: u64) -> usize
    ensures { result ≡ length (put 9 n) }
{
    if n == 0 {
        return 1;
    }
    ((70 - n.leading_zeros()) / 7) as usize
}

// Writes n at the front of rest, which has room for it, and returns how many bytes that took.
pub fn put_within(rest: &mut [u8], n: u64) -> usize
    requires { length (put 9 n) ≤ length rest.old }
    ensures { Put (put 9 n) rest.old rest.new result }
{
    let mut i = 0;
    let mut m = n;
    // The loop goes by what is left of n. One over the bytes of rest would need an answer at their end, which is not reached.
    while 128 <= m {
        rest[i] = (m % 128 + 128) as u8;
        m /= 128;
        i += 1;
    }
    rest[i] = m as u8;
    i + 1
}

// Writes n at the front of rest and returns how many bytes that took; if it does not fit, writes nothing.
pub fn put(rest: &mut [u8], n: u64) -> Option<usize>
    ensures fits { IsSome result ↔ (length (put 9 n) ≤ length rest.old) }
    ensures stores { stored (unwrap_or result 0) rest.new ≡ store (put 9 n) rest.old }
{
    if rest.len() < size(n) {
        return None;
    }
    Some(put_within(rest, n))
}
