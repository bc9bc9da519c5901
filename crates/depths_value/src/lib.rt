// The depth of one value (document 01, "Check and depths"), from the depths of the values before it.
#![tactic(auto)]

ghost use Rattle.std.specs.Prelude.{◌≡◌, suc, ◌≤◌, ◌<◌, ◌^◌, max, length, take, get_or};
ghost use Rattle.prelude.specs.Search.{Rising};
ghost use Rattle.error.specs.Error.{LIMIT};
ghost use Rattle.table.specs.Blocks.{Counted};
ghost use Rattle.depths_value.specs.Depth.{target_depth, deepest_in, depth_at, depths_to};
ghost use Rattle.depths_value.specs.Internal.{Starts as AreStarts};

use scan::{Head, Region};
use table_search::Starts;

// The depth of the target of the token with head h at `at`, or 0 if it has none. The values start at `starts`; those before this
// one have the depths `before`.
fn target_depth(starts: Starts, before: &[u32], at: usize, h: Head) -> u32
    requires { at < 2 ^ 32 }
    ensures { result ≡ target_depth starts.entry.words.now before.now at h }
{
    let q = at as u64;
    if (kind::KIND_REFERENCE <= h.kind) & (h.n < q) {
        let target = q - h.n - 1;
        if let Some(&depth) = before.get(starts.rank(target as u32)) {
            return depth;
        }
    }
    0
}

// The greatest depth of a target of the tokens from `start` to `end`.
fn deepest(region: Region, starts: Starts, before: &[u32], start: usize, end: usize) -> u32
    requires { start ≤ length region.bytes.now }
    ensures { result ≡ deepest_in region.entry.mode region.entry.bytes.now starts.entry.words.now before.now end start }
{
    let mut at = start;
    let mut deep: u32 = 0;
    while at < end {
        let Ok(h) = scan::scan(region.bytes, at, false, region.mode) else {
            return deep;
        };
        deep = deep.max(target_depth(starts, before, at, h));
        at = h.end;
    }
    deep
}

// Where value number i ends: where the next one starts; the last one, at the region's end.
fn end_of(len: usize, starts: &[u32], i: usize) -> usize
    requires { i < length starts.now }
    ensures { result ≡ get_or starts.now (suc i) len }
{
    starts.get(i + 1).map_or(len, |&next| next as usize)
}

// The depth of value number i; the first i words of the table hold the depths of the values before it.
pub fn depth_at(region: Region, starts: Starts, depths: &[u32], i: usize) -> u32
    requires { (i < length starts.words.now) × (i ≤ length depths.now) × (AreStarts region.bytes.now starts.words.now)
        × (take i depths.now ≡ depths_to region.mode region.bytes.now starts.words.now i) }
    ensures { result ≡ depth_at region.entry.mode region.entry.bytes.now starts.entry.words.now (take i depths.now) i }
{
    let start = starts.words[i] as usize;
    let end = end_of(region.bytes.len(), starts.words, i);
    deepest(region, starts, &depths[..i], start, end) + 1
}
