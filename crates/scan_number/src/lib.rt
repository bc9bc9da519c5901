// The number n of a header, whether there is room for what it counts, and the error if there is not.
#![tactic(auto)]

ghost use Rattle.std.specs.Prelude.{◌≡◌, ◌+◌, ◌*◌, ◌≤◌, ◌<◌, ◌^◌, leb};
ghost use Rattle.error.specs.Error.{fault_of};
ghost use Rattle.leb128.specs.Answers as numbers;
ghost use Rattle.kind.specs.Kind.{size};
ghost use Rattle.kind.specs.Internal.{Row};
ghost use Rattle.token.specs.Scan as tokens;
ghost use Rattle.scan_number.specs.Internal.{numbered};

use error::{Error, ErrorKind};
use kind::Rule;
use leb128::{Mode, Number};

// The number n of a header with this low nibble, if s comes after it, and the bytes left after n.
pub fn number(low: u8, most: u64, s: &[u8], mode: Mode) -> Result<Number, ErrorKind>
    requires { (low ≤ most) × (low < 16) }
    ensures { numbers.answer_of result ≡ numbered mode low most s.now }
{
    if low < kind::EXTENDED as u8 {
        return Ok(Number {
            value: u64::from(low),
            left: s.len(),
        });
    }
    let above = leb128::get(s, mode)?;
    // RANGE: n is over its kind's bound
    if most - kind::EXTENDED < above.value {
        return Err(ErrorKind::Range);
    }
    Ok(Number {
        value: kind::EXTENDED + above.value,
        left: above.left,
    })
}

// Whether the bytes left have room for the body and the items that n counts.
pub fn has_room(rule: Rule, n: u64, left: u64) -> bool
    requires { (Row rule) × (n ≤ rule.most) × (left < 2 ^ 63) }
    ensures { result ≡ leb (size rule n + rule.each * n) left }
{
    let scale = rule.scale;
    let unit = scale + rule.each;
    if (0 < unit) & (left < n) {
        return false;
    }
    rule.fixed + unit * n <= left
}

// The error of a token at the offset `at` whose body, or the items that it counts, exceed the bytes left; `first` is the
// offset just after its numbers.
pub fn shortage(rule: Rule, at: usize, first: usize) -> Error
    ensures { fault_of result ≡ tokens.shortage at first rule }
{
    // TRUNC: the region ends inside a fixed body
    if 0 < rule.fixed {
        return Error {
            kind: ErrorKind::Trunc,
            place: at,
        };
    }
    // LONG_BODY: the length exceeds the bytes left
    if 0 < rule.scale {
        return Error {
            kind: ErrorKind::LongBody,
            place: first,
        };
    }
    // LONG_LIST: the count of items exceeds the bytes left
    Error {
        kind: ErrorKind::LongList,
        place: first,
    }
}
