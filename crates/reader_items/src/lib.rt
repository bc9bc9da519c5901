// The end of a value, and its items, at an offset of any file (document 01, "Questions at an offset").
#![tactic(auto)]

ghost use Rattle.std.specs.Prelude.{◌≡◌};
ghost use Rattle.reader_region.specs.Answers.{offset_answer};
ghost use Rattle.reader_items.specs.Items.{skip_items, skip_of, starts_in, item_on, item_of};

use error::{Error, ErrorKind};
use leb128::Mode;
use scan::Head;

// The offset after `items` items from `at` on.
#[tactic(auto, using(crate::proofs::Laws::walk))]
fn skip_items(region: &[u8], at: usize, items: u64, mode: Mode) -> Result<usize, Error>
    ensures { offset_answer result ≡ skip_items mode region.now items at }
{
    let mut q = at;
    for _ in 0..items {
        q = reader_region::peek_in(region, q, true, mode)?.end;
    }
    Ok(q)
}

// Where the value at `at` ends. Its items are looked at, but not text bytes; a target only has to be 0 or more.
pub fn skip(file: &[u8], at: usize, mode: Mode) -> Result<usize, Error>
    ensures { offset_answer result ≡ skip_of mode file.now at }
{
    let h = reader_region::peek(file, at, mode)?;
    skip_items(reader_region::region(file), h.end, h.items, mode)
}

// An offset where an item is to start, in a region of len bytes.
#[tactic(auto, unfolding(crate::specs::Items::starts_in))]
pub fn starts_in(len: usize, q: usize) -> Result<usize, Error>
    ensures { offset_answer result ≡ starts_in len q }
{
    if q < len {
        return Ok(q);
    }
    // TRUNC: the item would start at the region's end
    Err(Error {
        kind: ErrorKind::Trunc,
        place: len,
    })
}

// The offset of an item of the value at `at` of a region, which has the head h.
#[tactic(auto, unfolding(crate::specs::Items::item_on, prelude::specs::Answer::bind))]
fn item_on(region: &[u8], at: usize, index: usize, h: Head, mode: Mode) -> Result<usize, Error>
    ensures { offset_answer result ≡ item_on mode region.now at index h }
{
    // WRONG_KIND: a kind without items
    if kind::is_immediate(kind::rule_of(h.kind)) {
        return Err(Error {
            kind: ErrorKind::WrongKind,
            place: at,
        });
    }
    // NO_ITEM: the item number is at or past the count
    let i = index as u64;
    if h.items <= i {
        return Err(Error {
            kind: ErrorKind::NoItem,
            place: at,
        });
    }
    let q = skip_items(region, h.end, i, mode)?;
    starts_in(region.len(), q)
}

// The offset of an item of the value at `at`, which is not followed. The time grows with the items before it: for a value
// that `skip` accepts, a loop over its items asks for item 0, and then, while there are more, calls `skip` on the one before.
pub fn item(file: &[u8], at: usize, index: usize, mode: Mode) -> Result<usize, Error>
    ensures { offset_answer result ≡ item_of mode file.now at index }
{
    let h = reader_region::peek(file, at, mode)?;
    item_on(reader_region::region(file), at, index, h, mode)
}
