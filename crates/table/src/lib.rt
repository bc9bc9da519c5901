// A table of words, counted by blocks, so that a search (crate table_search) has little to look at.
#![tactic(auto)]

ghost use Rattle.std.specs.Prelude.{◌≡◌, ◌+◌, ◌*◌, ◌≤◌, ◌<◌, ◌^◌, length, take};
ghost use Rattle.prelude.specs.Search.{Rising};
ghost use Rattle.table.specs.Blocks.{BLOCK, Counted, Below};

// The size of a block, for an offset and for a word.
pub const BLOCK: usize = 4096;

pub const BLOCK_WORD: u32 = BLOCK as u32;

// How many blocks the longest region has.
pub const BLOCKS: usize = 4096;

// How many blocks a short region has.
pub const FEW: usize = 16;

// The length from which a region is not short: FEW blocks.
pub const LONG: usize = 65536;

// Counts the words of a table for the blocks from `next` to `last`; all of them come before block `next`.
pub fn count_blocks(t: &[u32], blocks: &mut [u32], next: usize, last: usize)
    requires { (next ≤ last + 1) × (last < length blocks.old) × (length t.now < 2 ^ 32)
        × (Below (next * BLOCK) t.now) × (Counted (take next blocks.old) t.now) }
    ensures { Counted (take (last + 1) blocks.new) t.now }
{
    blocks[next..=last].fill(t.len() as u32);
}

// Fills `blocks` up to the block of the last word; returns how many blocks are filled.
pub fn index(t: &[u32], blocks: &mut [u32]) -> usize
    requires { (Rising t.now) × (Below (length blocks.old * BLOCK) t.now) }
    ensures { (result ≤ length blocks.new) × (Counted (take result blocks.new) t.now) }
{
    let mut known: usize = 0;
    for (i, &word) in t.iter().enumerate() {
        let last = (word / BLOCK_WORD) as usize;
        count_blocks(&t[..i], blocks, known, last);
        known = last + 1;
    }
    known
}
