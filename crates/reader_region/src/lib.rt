// What every query begins with: the region of an unchecked file, and the token at an offset of it (document 01,
// "Questions at an offset").
#![tactic(auto)]

ghost use Rattle.std.specs.Prelude.{◌≡◌, ◌-◌, length, take};
ghost use Rattle.scan.specs.Answers as scans;
ghost use Rattle.reader_region.specs.Region.{region_len, peek_in, peek_of};
ghost use Rattle.reader_region.specs.Answers.{offset_answer};

use error::{Error, ErrorKind};
use leb128::Mode;
use scan::Head;

// How long the region of a file of len bytes is, if `at` is in it.
#[tactic(auto, unfolding(crate::specs::Region::region_len))]
pub fn region_len(len: usize, at: usize) -> Result<usize, Error>
    ensures { offset_answer result ≡ region_len len at }
{
    if len == 0 {
        return Err(Error {
            kind: ErrorKind::Empty,
            place: 0,
        });
    }
    if error::LIMIT < len {
        return Err(Error {
            kind: ErrorKind::TooLong,
            place: 0,
        });
    }
    if at < len - 1 {
        return Ok(len - 1);
    }
    Err(Error {
        kind: ErrorKind::Outside,
        place: at,
    })
}

// The head at `at` of a region, as a query looks at it; as an item's if `inner` is true. Region and mode come apart: this holds
// for a region of any length, and `scan::Region`, which has the two, is for regions within the limit.
#[tactic(auto, unfolding(crate::specs::Region::peek_in, prelude::specs::Answer::bind))]
#[inline(always)]
pub fn peek_in(region: &[u8], at: usize, inner: bool, mode: Mode) -> Result<Head, Error>
    ensures { scans.answer_of result ≡ peek_in mode inner region.now at }
{
    let h = scan::scan(region, at, inner, mode)?;
    // BAD_TARGET: the target of a reference or pointer is below 0
    if kind::KIND_REFERENCE <= h.kind && at as u64 <= h.n {
        return Err(Error {
            kind: ErrorKind::BadTarget,
            place: at,
        });
    }
    Ok(h)
}

// The head of the value at `at`, with the errors of `read`: its kind and numbers as they are, and where its body or
// first item starts.
#[tactic(auto, using(crate::proofs::Laws::regions))]
#[inline(always)]
pub fn peek(file: &[u8], at: usize, mode: Mode) -> Result<Head, Error>
    ensures { scans.answer_of result ≡ peek_of mode file.now at }
{
    let n = region_len(file.len(), at)?;
    peek_in(&file[..n], at, false, mode)
}

// The region: all bytes but the last; no bytes if the file has none.
pub fn region(file: &[u8]) -> &[u8]
    ensures { result.now ≡ take (length file.now - 1) file.now }
{
    match file.split_last() {
        Some((_, region)) => region,
        None => file,
    }
}
