// The value that a map at an offset of any file has for a key (document 01, "Questions at an offset").
#![tactic(auto)]

ghost use Rattle.std.specs.Prelude.{◌≡◌, ◌≤◌, length};
ghost use Rattle.reader_region.specs.Answers.{offset_answer};
ghost use Rattle.reader_lookup.specs.Lookup.{is_key, pairs, lookup_on, lookup_of};
ghost use Rattle.reader_lookup.specs.Internal.{match_key, pair_at, pair_answer};

use error::{Error, ErrorKind};
use leb128::Mode;
use scan::Head;
use std::ops::ControlFlow;

// Whether the value with head h is a text with the bytes of `key`.
#[tactic(auto, using(crate::proofs::Laws::same_slices))]
fn is_key(region: &[u8], key: &[u8], h: Head) -> bool
    requires { (h.first ≤ h.end) × (h.end ≤ length region.now) }
    ensures { result ≡ is_key region.now key.now h }
{
    h.kind == kind::KIND_TEXT && &region[h.first..h.end] == key
}

// A pair whose key, followed, has the head h, and whose value starts at q: a break with the offset of that value, or, if the key
// differs, the offset of the next pair. The value is then read, to find where the next pair starts.
#[tactic(auto, unfolding(crate::specs::Internal::or_stop))]
fn match_key(
    region: &[u8],
    key: &[u8],
    q: usize,
    h: Head,
    mode: Mode,
) -> Result<ControlFlow<usize, usize>, Error>
    requires { (h.first ≤ h.end) × (h.end ≤ length region.now) }
    ensures { pair_answer result ≡ match_key mode region.now key.now q h }
{
    if is_key(region, key, h) {
        return Ok(ControlFlow::Break(reader_items::starts_in(region.len(), q)?));
    }
    let value = reader_region::peek_in(region, q, true, mode)?;
    Ok(ControlFlow::Continue(value.end))
}

// A pair whose key starts at q.
#[tactic(auto, unfolding(crate::specs::Internal::or_stop))]
fn pair(region: &[u8], key: &[u8], q: usize, mode: Mode) -> Result<ControlFlow<usize, usize>, Error>
    ensures { pair_answer result ≡ pair_at mode region.now key.now q }
{
    let h = reader_region::peek_in(region, q, true, mode)?;
    let (_, head) = reader_follow::follow_from(region, q, mode)?;
    match_key(region, key, h.end, head, mode)
}

// Looks the key up in the map at `at`, of which `count` pairs are left from `first` on.
#[tactic(auto, using(crate::proofs::Laws::pair_by_pair))]
fn pairs(
    region: &[u8],
    at: usize,
    key: &[u8],
    count: u64,
    first: usize,
    mode: Mode,
) -> Result<usize, Error>
    ensures { offset_answer result ≡ pairs mode region.now at key.now count first }
{
    let mut q = first;
    for _ in 0..count {
        match pair(region, key, q, mode)? {
            ControlFlow::Continue(next) => q = next,
            ControlFlow::Break(value) => return Ok(value),
        }
    }
    // NO_ITEM: no key matches
    Err(Error {
        kind: ErrorKind::NoItem,
        place: at,
    })
}

fn lookup_on(region: &[u8], at: usize, key: &[u8], h: Head, mode: Mode) -> Result<usize, Error>
    ensures { offset_answer result ≡ lookup_on mode region.now at key.now h }
{
    if h.kind == kind::KIND_MAP {
        return pairs(region, at, key, h.n, h.end, mode);
    }
    // WRONG_KIND: not a map
    Err(Error {
        kind: ErrorKind::WrongKind,
        place: at,
    })
}

// The offset of the value that a map has for a key: that of the first pair whose key, followed, is a text with these
// bytes; TRUNC if it would start at the region's end. A fault before it is the answer. The map itself is not followed.
pub fn lookup(file: &[u8], at: usize, key: &[u8], mode: Mode) -> Result<usize, Error>
    ensures { offset_answer result ≡ lookup_of mode file.now at key.now }
{
    let h = reader_region::peek(file, at, mode)?;
    lookup_on(reader_region::region(file), at, key, h, mode)
}
