// The starts of a region's values, listed in a table (document 01, "Check and depths").
#![tactic(auto)]

ghost use Rattle.std.specs.Prelude.{◌≡◌, [], ◌*◌, ◌≤◌, ◌<◌, length, get_or};
ghost use Rattle.error.specs.Error.{LIMIT};
ghost use Rattle.table.specs.Blocks.{BLOCK};
ghost use Rattle.checker_value.specs.Walk.{between, starts_from};
ghost use Rattle.checker_starts.specs.Answers.{list_answer, Listed};

use error::{Error, ErrorKind};
use scan::Region;
use table_search::Starts;

// Lists the starts of a region's values in the first words of the table, and counts them by blocks of the region; returns how
// many they are.
fn walk(region: Region, starts: &mut [u32], blocks: &mut [u32]) -> Result<usize, Error>
    requires { (length region.bytes.now < length blocks.old * BLOCK) × (get_or blocks.old 0 0 ≡ 0) }
    ensures { (list_answer result starts.new ≡ starts_from region.entry.mode region.entry.bytes.now (length starts.old) (between 0 []))
        × (Listed result starts.new) }
{
    let mut at: usize = 0;
    let mut count: usize = 0;
    // from value to value, by the offsets where they end, and not by an index
    while at < region.bytes.len() {
        // FULL: a new value without a word
        if starts.len() <= count {
            return Err(Error {
                kind: ErrorKind::Full,
                place: at,
            });
        }
        // the blocks that begin at `at` or before are counted
        let known = at / table::BLOCK + 1;
        // the start of this value, which is listed, and so may be a target, once the value is finished
        starts[count] = at as u32;
        let before = Starts {
            words: &starts[..count],
            blocks: &blocks[..known],
        };
        let end = checker_value::check_value(region, before, at)?;
        count += 1;
        table::count_blocks(&starts[..count], blocks, known, end / table::BLOCK);
        at = end;
    }
    Ok(count)
}

// Lists the starts of a region's values in the first words of the table, and returns how many they are. A short region has few
// blocks: for a small file, clearing the large array would take longer than the walk. No function lends blocks to a closure: a
// proof would know nothing of what the closure leaves in `starts`.
pub fn list_starts(region: Region, starts: &mut [u32]) -> Result<usize, Error>
    requires { length region.bytes.now < LIMIT }
    ensures { (list_answer result starts.new ≡ starts_from region.entry.mode region.entry.bytes.now (length starts.old) (between 0 []))
        × (Listed result starts.new) }
{
    if region.bytes.len() < table::LONG {
        let mut few = [0u32; table::FEW];
        return walk(region, starts, &mut few);
    }
    let mut blocks = [0u32; table::BLOCKS];
    walk(region, starts, &mut blocks)
}
