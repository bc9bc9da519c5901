// The marked values, written again (document 02, W-204).
#![tactic(auto)]

ghost use Rattle.std.specs.Prelude.{◌≡◌, false, ◌-◌, ◌≤◌, ◌<◌, leb, length, take, get_or};
ghost use Rattle.prelude.specs.Pick.{pick};
ghost use Rattle.prelude.specs.Answer.{ok};
ghost use Rattle.prelude.specs.Search.{rank};
ghost use Rattle.error.specs.Error.{LIMIT};
ghost use Rattle.kind.specs.Kind.{rule};
ghost use Rattle.table.specs.Blocks.{Below};
ghost use Rattle.writer.specs.Step.{result as outcome, put_moved};
ghost use Rattle.writer.specs.Answers.{wrote};
ghost use Rattle.prune_tokens.specs.Tokens.{heads, heads_of};
ghost use Rattle.prune_marks.specs.Marks.{starts_in, marks_in, kept};
ghost use Rattle.prune_copy.specs.Copy.{token_of, copy_tokens, copy_values};
ghost use Rattle.prune_copy.specs.Internal.{Ready, HeadIn};

use error::ErrorKind;
use leb128::Mode;
use scan::Head;
use writer::Writer;

// The values of a region, ready to be written again: `words` keep where they start and which are marked, and are numbered; `blocks` count
// the starts.
#[derive(Clone, Copy)]
pub struct Values<'a> {
    pub region: &'a [u8],
    pub words: &'a [u32],
    pub blocks: &'a [u32],
    ghost ready: { Ready words.now blocks.now },
    ghost inside: { Below (length region.now) (starts_in words.now) },
    ghost short: { length region.now < LIMIT },
}

// The argument count of a token with head h; 0 if its kind has none.
fn argument_count(h: Head) -> u64
    requires { h.kind < 16 }
    ensures { result ≡ pick (rule h.kind).args h.items 0 }
{
    if kind::rule_of(h.kind).args {
        return h.items;
    }
    0
}

// Writer, output and new table are parameters of each method, as of the writer's own calls (document 01, "Writer"). A struct that held them would
// be no plainer: each method would have to ensure that it still holds the same memory.
impl Values<'_> {
    // The number that the target of the token with head h at `at` gets; 0 if it has none.
    fn new_number(&self, at: usize, h: Head) -> usize
        requires { at < LIMIT }
        ensures { result ≡ pick (leb 14 h.kind) (kept (take (rank (at - h.n - 1) (starts_in self.now.words.now)) (marks_in self.now.words.now))) 0 }
    {
        if kind::KIND_REFERENCE <= h.kind {
            let i = prune_marks::find(self.words, self.blocks, prune_tokens::target(at, h.n));
            return prune_marks::place(self.words, i);
        }
        0
    }

    // Writes or refuses the token with head h at `at`.
    fn copy_token(
        &self,
        at: usize,
        h: Head,
        writer: &mut Writer,
        out: &mut [u8],
        new: &mut [u32],
    ) -> Result<(), ErrorKind>
        requires { (at < LIMIT) × (HeadIn self.now.region.now h) }
        ensures { wrote result writer.new.state out.new new.new ≡ put_moved (token_of self.now.region.now h)
            (kept (take (rank (at - h.n - 1) (starts_in self.now.words.now)) (marks_in self.now.words.now))) writer.old.state out.old new.old }
    {
        let number = self.new_number(at, h);
        let args = argument_count(h);
        let body = &self.region[h.first..h.end];
        writer.put_moved(h.kind, h.n, args, body, number, out, new)
    }

    // Writes the tokens from `start` to `end`, up to the first that is refused.
    fn copy_tokens(
        &self,
        start: usize,
        end: usize,
        writer: &mut Writer,
        out: &mut [u8],
        new: &mut [u32],
    ) -> Result<(), ErrorKind>
        requires { start ≤ length self.now.region.now }
        ensures { wrote result writer.new.state out.new new.new
            ≡ copy_tokens self.now.region.now (starts_in self.now.words.now) (marks_in self.now.words.now)
            (heads self.now.region.now end start) writer.old.state out.old new.old }
    {
        let mut at = start;
        while at < end {
            let Ok(h) = scan::scan(self.region, at, false, Mode::Strict) else {
                return Ok(());
            };
            self.copy_token(at, h, writer, out, new)?;
            at = h.end;
        }
        Ok(())
    }

    // Writes value number i if it is marked.
    fn copy_value(
        &self,
        i: usize,
        writer: &mut Writer,
        out: &mut [u8],
        new: &mut [u32],
    ) -> Result<(), ErrorKind>
        requires { i < length self.now.words.now }
        ensures { wrote result writer.new.state out.new new.new ≡ pick (get_or (marks_in self.now.words.now) i false)
            (copy_tokens self.now.region.now (starts_in self.now.words.now) (marks_in self.now.words.now)
            (heads_of self.now.region.now (starts_in self.now.words.now) i) writer.old.state out.old new.old)
            (outcome (ok tt) writer.old.state out.old new.old) }
    {
        if prune_marks::is_marked(self.words, i) {
            let start = prune_marks::start_of(self.words, i);
            let end = prune_marks::end_of(self.words, i, self.region.len());
            return self.copy_tokens(start, end, writer, out, new);
        }
        Ok(())
    }

    // Writes the marked ones of the first n values, up to the first call that is refused.
    pub fn copy_values(
        &self,
        n: usize,
        writer: &mut Writer,
        out: &mut [u8],
        new: &mut [u32],
    ) -> Result<(), ErrorKind>
        requires { n ≤ length self.now.words.now }
        ensures { wrote result writer.new.state out.new new.new
            ≡ copy_values self.now.region.now (starts_in self.now.words.now) (marks_in self.now.words.now)
            n 0 writer.old.state out.old new.old }
    {
        for i in 0..n {
            self.copy_value(i, writer, out, new)?;
        }
        Ok(())
    }
}
