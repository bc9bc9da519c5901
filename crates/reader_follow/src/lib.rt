// Pointers followed from an offset of any file (document 01, "Questions at an offset").
#![tactic(auto)]

ghost use Rattle.std.specs.Prelude.{◌≡◌};
ghost use Rattle.reader_follow.specs.Follow.{position, follow_from, follow_head_of, follow_of};
ghost use Rattle.reader_follow.specs.Answers.{follow_head_answer, follow_answer};

use error::Error;
use leb128::Mode;
use scan::Head;

// The value that is not a pointer, and how many pointers led to it.
#[derive(Clone, Copy, Debug, PartialEq, Eq)]
pub struct Followed {
    pub at: usize,
    pub hops: usize,
}

// From pointer to pointer, from `at` of a region to a value of another kind, which is returned with its head. A `loop`, since
// only the token read says where it goes on.
#[tactic(auto, using(crate::proofs::Laws::hops))]
#[inline(always)]
pub fn follow_from(region: &[u8], at: usize, mode: Mode) -> Result<(Followed, Head), Error>
    ensures { follow_head_answer result ≡ follow_from mode region.now (position at 0) }
{
    let mut here = Followed { at, hops: 0 };
    loop {
        let head = reader_region::peek_in(region, here.at, false, mode)?;
        if head.kind != kind::KIND_POINTER {
            return Ok((here, head));
        }
        here.at = here.at - head.n as usize - 1;
        here.hops += 1;
    }
}

// The same from an offset of a file.
#[tactic(auto, using(reader_region::proofs::Laws::regions))]
#[inline(always)]
pub fn follow_head(file: &[u8], at: usize, mode: Mode) -> Result<(Followed, Head), Error>
    ensures { follow_head_answer result ≡ follow_head_of mode file.now at }
{
    let n = reader_region::region_len(file.len(), at)?;
    follow_from(&file[..n], at, mode)
}

// Follows pointers from the value at `at` to one that is not a pointer. References are not followed.
pub fn follow(file: &[u8], at: usize, mode: Mode) -> Result<Followed, Error>
    ensures { follow_answer result ≡ follow_of mode file.now at }
{
    let (followed, _) = follow_head(file, at, mode)?;
    Ok(followed)
}
