// What a value reaches, marked (document 02, W-204).
#![tactic(auto)]

ghost use Rattle.std.specs.Prelude.{◌≡◌, true, false, ◌-◌, ◌≤◌, ◌<◌, leb, length, get_or, set, replicate};
ghost use Rattle.prelude.specs.Pick.{pick};
ghost use Rattle.prelude.specs.Search.{rank};
ghost use Rattle.error.specs.Error.{LIMIT};
ghost use Rattle.table.specs.Blocks.{Below};
ghost use Rattle.prune_tokens.specs.Tokens.{heads};
ghost use Rattle.prune_marks.specs.Marks.{starts_in, marks_in, Indexed};
ghost use Rattle.prune_reach.specs.Reach.{aims, aims_at, marked, sweep, reached};

use leb128::Mode;
use scan::Head;

// Marks the value that the token with head h at `at` names, if it names one.
fn mark_target(t: &mut [u32], blocks: &[u32], at: usize, h: Head)
    requires { (Indexed t.old blocks.now) × (at < LIMIT) }
    ensures { (starts_in t.new ≡ starts_in t.old) × (marks_in t.new
        ≡ pick (leb 14 h.kind) (set (marks_in t.old) (rank (at - h.n - 1) (starts_in t.old)) true) (marks_in t.old)) }
{
    if kind::KIND_REFERENCE <= h.kind {
        let i = prune_marks::find(t, blocks, prune_tokens::target(at, h.n));
        prune_marks::set_mark(t, i);
    }
}

// Marks what the tokens from `start` to `end` name.
// The table is written between reads of it. A struct that held it would be no plainer: each method would have to ensure that it still holds the
// same table. So region, table and blocks are parameters.
fn mark_targets(region: &[u8], t: &mut [u32], blocks: &[u32], start: usize, end: usize)
    requires { (Indexed t.old blocks.now) × (start ≤ length region.now) × (length region.now < LIMIT) }
    ensures { (starts_in t.new ≡ starts_in t.old)
        × (marks_in t.new ≡ marked (aims (starts_in t.old) (heads region.now end start)) (marks_in t.old)) }
{
    let mut at = start;
    while at < end {
        let Ok(h) = scan::scan(region, at, false, Mode::Strict) else {
            return;
        };
        mark_target(t, blocks, at, h);
        at = h.end;
    }
}

// If value number i is marked, marks what it names.
fn visit(region: &[u8], t: &mut [u32], blocks: &[u32], i: usize)
    requires { (i < length t.old) × (Indexed t.old blocks.now)
        × (Below (length region.now) (starts_in t.old)) × (length region.now < LIMIT) }
    ensures { (starts_in t.new ≡ starts_in t.old)
        × (marks_in t.new ≡ pick (get_or (marks_in t.old) i false)
        (marked (aims_at region.now (starts_in t.old) i) (marks_in t.old))
        (marks_in t.old)) }
{
    if prune_marks::is_marked(t, i) {
        let start = prune_marks::start_of(t, i);
        let end = prune_marks::end_of(t, i, region.len());
        mark_targets(region, t, blocks, start, end);
    }
}

// A pass over the values before number n, from the last to the first: each that is marked then marks what it names.
fn pass(region: &[u8], t: &mut [u32], blocks: &[u32], n: usize)
    requires { (n ≤ length t.old) × (Indexed t.old blocks.now) × (Below (length region.now) (starts_in t.old)) × (length region.now < LIMIT) }
    ensures { (starts_in t.new ≡ starts_in t.old)
        × (marks_in t.new ≡ sweep (aims_at region.now (starts_in t.old)) n (marks_in t.old)) }
{
    for i in (0..n).rev() {
        visit(region, t, blocks, i);
    }
}

// Marks what value number e reaches, of values without a mark; `blocks` count their starts.
pub fn reach(region: &[u8], t: &mut [u32], blocks: &[u32], e: usize)
    requires { (e < length t.old) × (Indexed t.old blocks.now)
        × (Below (length region.now) (starts_in t.old)) × (length region.now < LIMIT) × (marks_in t.old ≡ replicate (length t.old) false) }
    ensures { (starts_in t.new ≡ starts_in t.old)
        × (marks_in t.new ≡ reached region.now (starts_in t.old) e) }
{
    prune_marks::set_mark(t, e);
    pass(region, t, blocks, e + 1);
}
