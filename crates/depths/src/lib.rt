// Depths (document 01, "Check and depths").
#![tactic(auto)]

ghost use Rattle.std.specs.Prelude.{◌≡◌, ◌*◌, ◌≤◌, length, take};
ghost use Rattle.error.specs.Error.{LIMIT};
ghost use Rattle.table.specs.Blocks.{BLOCK, Below};
ghost use Rattle.depths_value.specs.Depth.{depths_to};
ghost use Rattle.depths_value.specs.Internal.{Starts as AreStarts};
ghost use Rattle.checker.specs.Answers.{check_answer};
ghost use Rattle.depths.specs.Depths.{deepened, depths_of};

use checker::Summary;
use error::{Error, ErrorKind};
use leb128::Mode;
use scan::Region;

// Computes the depths of all values into the first words of the table, with the blocks as an index of their starts.
fn depths_to_by(region: Region, starts: &[u32], blocks: &mut [u32], depths: &mut [u32])
    requires { (length starts.now ≤ length depths.old) × (AreStarts region.bytes.now starts.now) × (Below (length blocks.old * BLOCK) starts.now) }
    ensures { take (length starts.now) depths.new
        ≡ depths_to region.entry.mode region.entry.bytes.now starts.now (length starts.now) }
{
    let known = table::index(starts, blocks);
    let indexed = table_search::Starts {
        words: starts,
        blocks: &blocks[..known],
    };
    for i in 0..starts.len() {
        depths[i] = depths_value::depth_at(region, indexed, depths, i);
    }
}

// Computes the depths of all values into the first words of the table. A short region has few blocks, as in
// `checker_starts::list_starts`. No function lends blocks to a closure: a proof would know nothing of what the closure leaves in `depths`.
fn depths_to(region: Region, starts: &[u32], depths: &mut [u32])
    requires { (length starts.now ≤ length depths.old) × (AreStarts region.bytes.now starts.now) }
    ensures { take (length starts.now) depths.new
        ≡ depths_to region.entry.mode region.entry.bytes.now starts.now (length starts.now) }
{
    if region.bytes.len() < table::LONG {
        let mut few = [0u32; table::FEW];
        depths_to_by(region, starts, &mut few, depths);
        return;
    }
    let mut blocks = [0u32; table::BLOCKS];
    depths_to_by(region, starts, &mut blocks, depths);
}

// Checks a file in a mode, and returns how deep its values are: the depth of a value is the number of values on the longest path
// from it, where a path goes from a value to any value that it, or an item of it, points at or refers to. The tables
// get the starts and the depths, one word a value, and 0 in every other word; on an error, 0 in every word. Check's
// errors come first; then FULL, if the second table has fewer words than the file has values, at the start of the first
// value without a word.
pub fn depths(
    file: &[u8],
    starts: &mut [u32],
    depths: &mut [u32],
    mode: Mode,
) -> Result<Summary, Error>
    ensures { deepened (check_answer result) starts.new depths.new
        ≡ depths_of mode file.now (length starts.old) (length depths.old) }
{
    let found = match checker::check(file, starts, mode) {
        Ok(summary) => summary,
        Err(e) => {
            depths.fill(0);
            return Err(e);
        }
    };
    let room = depths.len();
    if room < found.count {
        // FULL: a value without a word in the second table
        let place = starts[room] as usize;
        starts.fill(0);
        depths.fill(0);
        return Err(Error {
            kind: ErrorKind::Full,
            place,
        });
    }
    let p = file.len() - 1;
    let region = Region {
        bytes: &file[..p],
        mode,
    };
    depths_to(region, &starts[..found.count], depths);
    depths[found.count..].fill(0);
    Ok(found)
}
