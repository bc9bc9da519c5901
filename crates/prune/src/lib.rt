// Prune: the values that a file's entry reaches, as a new file (document 02, W-204).
#![tactic(auto)]

ghost use Rattle.std.specs.Prelude.{◌≡◌, suc, ◌-◌, ◌*◌, ◌≤◌, ◌<◌, length, take, get_or, replicate};
ghost use Rattle.table.specs.Blocks.{BLOCK, Counted, Below};
ghost use Rattle.writer.specs.Step.{fresh};
ghost use Rattle.prune_marks.specs.Marks.{starts_in, marks_in, kept};
ghost use Rattle.prune_copy.specs.Copy.{and_on, copy_values};
ghost use Rattle.prune.specs.Prune.{close_number, pruned, prune_of};
ghost use Rattle.prune.specs.Answers.{file_answer, prune_answer};
ghost use Rattle.prune.specs.Internal.{Row, Marked, Rebuilt, made, told, cleared};

use error::{Error, ErrorKind};
use leb128::Mode;
use prune_copy::Values;
use writer::Writer;

// The new file: its length, how many values it has, and the offset of its entry.
#[derive(Clone, Copy)]
pub struct NewFile {
    pub length: usize,
    pub count: usize,
    pub entry: usize,
}

// Why a file is not pruned.
#[derive(Clone, Copy)]
pub enum PruneError {
    // The file is refused by check.
    BadFile(Error),
    // The new file does not fit: NO_ROOM, or FULL of the new table. The error has no place.
    NoFit(ErrorKind),
}

impl From<Error> for PruneError {
    ghost use Rattle.std.specs.Prelude.{◌≡◌};
    ghost use Rattle.prune.specs.declared.PruneError.TheVariants.{BadFile};

    ghost from_gives = { λ e f. f ≡ BadFile e };

    fn from(e: Error) -> PruneError {
        PruneError::BadFile(e)
    }
}

impl From<ErrorKind> for PruneError {
    ghost use Rattle.std.specs.Prelude.{◌≡◌};
    ghost use Rattle.prune.specs.declared.PruneError.TheVariants.{NoFit};

    ghost from_gives = { λ e f. f ≡ NoFit e };

    fn from(e: ErrorKind) -> PruneError {
        PruneError::NoFit(e)
    }
}

// Word number i of a table; 0 if it has no such word.
fn word(t: &[u32], i: usize) -> usize
    ensures { result ≡ get_or t.now i 0 }
{
    match t.get(i) {
        Some(&word) => word as usize,
        None => 0,
    }
}

// Marks what the value that starts at `entry` reaches, of the values that start at `starts`, and numbers the marks; returns the
// number of that value. The words then keep a mark and a number with each start.
fn mark(region: &[u8], starts: &mut [u32], blocks: &[u32], entry: usize) -> usize
    requires { (Row region.now starts.old entry) × (Counted blocks.now starts.old) }
    ensures { Marked region.now starts.old blocks.now entry starts.new result }
{
    prune_marks::pack(starts);
    let e = prune_marks::find(starts, blocks, entry as u32);
    prune_reach::reach(region, starts, blocks, e);
    prune_marks::number(starts);
    e
}

// Writes the marked ones of the values up to number e, and closes at that one.
fn write_new(
    values: Values,
    e: usize,
    out: &mut [u8],
    new: &mut [u32],
) -> Result<NewFile, ErrorKind>
    requires { e < length values.words.now }
    ensures { let s = values.entry.region.now in
        let t = values.entry.words.now in
        let k = kept (take e (marks_in t)) in
        made (file_answer result) out.new new.new
        ≡ told k (and_on (copy_values s (starts_in t) (marks_in t) (suc e) 0 fresh out.old new.old) (close_number k)) }
{
    let k = prune_marks::place(values.words, e);
    let mut writer = Writer::new();
    values.copy_values(e + 1, &mut writer, out, new)?;
    writer.close(word(new, k), out, new)?;
    Ok(NewFile {
        length: writer.state.written,
        count: writer.state.count,
        entry: word(new, k),
    })
}

// Writes what the value that starts at `entry` reaches. The words of `starts` are as they were when it returns; `blocks` count them.
// Parameters and no struct, as in prune_reach: the table is written and given back.
fn rebuild_by(
    region: &[u8],
    starts: &mut [u32],
    blocks: &[u32],
    entry: usize,
    out: &mut [u8],
    new: &mut [u32],
) -> Result<NewFile, ErrorKind>
    requires { (Row region.now starts.old entry) × (Counted blocks.now starts.old) }
    ensures { Rebuilt region.now starts.old entry out.old new.old starts.new out.new new.new result }
{
    let e = mark(region, starts, blocks, entry);
    let values = Values {
        region,
        words: &*starts,
        blocks,
    };
    let answer = write_new(values, e, out, new);
    prune_marks::unpack(starts);
    answer
}

// The same, with the blocks to be filled.
fn rebuild_with(
    region: &[u8],
    starts: &mut [u32],
    blocks: &mut [u32],
    entry: usize,
    out: &mut [u8],
    new: &mut [u32],
) -> Result<NewFile, ErrorKind>
    requires { (Row region.now starts.old entry) × (Below (length blocks.old * BLOCK) starts.old) }
    ensures { Rebuilt region.now starts.old entry out.old new.old starts.new out.new new.new result }
{
    let known = table::index(starts, blocks);
    rebuild_by(region, starts, &blocks[..known], entry, out, new)
}

// Writes what the value that starts at `entry` reaches. A short region has few blocks, as in `checker_starts::list_starts`.
// No function lends blocks to a closure: a proof would know nothing of what the closure leaves in `starts`.
fn rebuild(
    region: &[u8],
    starts: &mut [u32],
    entry: usize,
    out: &mut [u8],
    new: &mut [u32],
) -> Result<NewFile, ErrorKind>
    requires { Row region.now starts.old entry }
    ensures { Rebuilt region.now starts.old entry out.old new.old starts.new out.new new.new result }
{
    if region.len() < table::LONG {
        let mut few = [0u32; table::FEW];
        return rebuild_with(region, starts, &mut few, entry, out, new);
    }
    let mut blocks = [0u32; table::BLOCKS];
    rebuild_with(region, starts, &mut blocks, entry, out, new)
}

// Writes what the entry of a file reaches, with the words of `new` made 0 first; check found `count` values, whose starts are the first
// words of `old`.
fn rebuild_file(
    file: &[u8],
    out: &mut [u8],
    old: &mut [u32],
    new: &mut [u32],
    count: usize,
    entry: usize,
) -> Result<NewFile, ErrorKind>
    requires { (1 ≤ length file.now) × (count ≤ length old.old) × (Row (take (length file.now - 1) file.now) (take count old.old) entry) }
    ensures { (old.new ≡ old.old)
        × (Rebuilt (take (length file.now - 1) file.now) (take count old.old) entry
        out.old (replicate (length new.old) 0) (take count old.new) out.new new.new result) }
{
    new.fill(0);
    let p = file.len() - 1;
    rebuild(&file[..p], &mut old[..count], entry, out, new)
}

// Prunes, and leaves output and new table as they are at the error that decides; the old table is then 0, which check sees to if it refuses the file.
fn try_prune(
    file: &[u8],
    out: &mut [u8],
    old: &mut [u32],
    new: &mut [u32],
) -> Result<NewFile, PruneError>
    ensures { cleared (prune_answer result) out.new old.new new.new
        ≡ prune_of file.now out.old (length old.old) (length new.old) }
{
    let found = checker::check(file, old, Mode::Strict)?;
    match rebuild_file(file, out, old, new, found.count, found.entry) {
        Ok(made) => Ok(made),
        Err(e) => {
            old.fill(0);
            Err(PruneError::from(e))
        }
    }
}

// Writes into the output a new file with exactly the values of a file that some path from its entry meets, each once and in their old order,
// and closed at the entry. The first table gets the starts of the file's values and the second those of the new file's, each
// with 0 in every other word; the output is as it was after the new file. On an error the whole output and both tables are 0.
// Check's errors come first, in the strict mode; then, as the writer gives them, FULL of the second table and NO_ROOM of the
// output: the first call that does not fit decides.
pub fn prune(
    file: &[u8],
    out: &mut [u8],
    old: &mut [u32],
    new: &mut [u32],
) -> Result<NewFile, PruneError>
    ensures { pruned (prune_answer result) out.new old.new new.new
        ≡ prune_of file.now out.old (length old.old) (length new.old) }
{
    let answer = try_prune(file, out, old, new);
    if answer.is_ok() {
        return answer;
    }
    out.fill(0);
    new.fill(0);
    answer
}
