// Check (document 01, "Check and depths").
#![tactic(auto)]

ghost use Rattle.std.specs.Prelude.{◌≡◌, ◌≤◌, ◌<◌, ◌^◌, length};
ghost use Rattle.prelude.specs.Answer.{ok, bind};
ghost use Rattle.prelude.specs.Search.{Rising};
ghost use Rattle.checker.specs.Check.{entry_at, check_in, checked, check_of};
ghost use Rattle.checker.specs.Answers.{check_answer};
ghost use Rattle.checker.specs.Internal.{check_in_answer, kept_words};

use error::{Error, ErrorKind};
use leb128::Mode;
use scan::Region;
use table_search::Starts;

// What check finds in a file: how many values it has, and the offset of its entry.
#[derive(Clone, Copy)]
pub struct Summary {
    pub count: usize,
    pub entry: usize,
}

// The entry that the delta byte d at the offset p names, among the starts of a file's values.
fn entry_at(starts: &[u32], p: usize, d: u8) -> Result<Summary, Error>
    requires { (Rising starts.now) × (p < 2 ^ 32) }
    ensures { check_answer result ≡ bind (entry_at p d starts.now) (λ e. ok (length starts.now, e)) }
{
    let delta = d as usize;
    if delta < p {
        let entry = p - delta - 1;
        // without blocks: a file needs only one such search
        let listed = Starts {
            words: starts,
            blocks: &starts[..0],
        };
        if listed.is_among(entry as u32) {
            return Ok(Summary {
                count: starts.len(),
                entry,
            });
        }
    }
    // BAD_ENTRY: no value starts there
    Err(Error {
        kind: ErrorKind::BadEntry,
        place: p,
    })
}

// Lists the starts of a file's values in the first words of the table, and finds its entry.
fn check_in(file: &[u8], starts: &mut [u32], mode: Mode) -> Result<Summary, Error>
    ensures { (check_in_answer result starts.new ≡ check_in mode file.now (length starts.old))
        × (kept_words result ≤ length starts.new) }
{
    let len = file.len();
    if len == 0 {
        return Err(Error {
            kind: ErrorKind::Empty,
            place: 0,
        });
    }
    if error::LIMIT < len {
        return Err(Error {
            kind: ErrorKind::TooLong,
            place: 0,
        });
    }
    let p = len - 1;
    let region = Region {
        bytes: &file[..p],
        mode,
    };
    let count = checker_starts::list_starts(region, starts)?;
    entry_at(&starts[..count], p, file[p])
}

// Checks a file in a mode. The table gets the offsets where its values start, in rising order, and 0 in every other word; on an
// error, 0 in every word. The first start is itself 0, so only the count says how many words are starts. A table
// with as many words as the file has bytes is never too short. Apart from the table, check takes some 17 KB of stack.
pub fn check(file: &[u8], starts: &mut [u32], mode: Mode) -> Result<Summary, Error>
    ensures { checked (check_answer result) starts.new ≡ check_of mode file.now (length starts.old) }
{
    let answer = check_in(file, starts, mode);
    // an answer keeps a start for each value, and none on an error
    let words = answer.map_or(0, |found| found.count);
    starts[words..].fill(0);
    answer
}
