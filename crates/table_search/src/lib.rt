// A search in a rising table of words, which are counted by blocks, so that it has little to look at.
#![tactic(auto)]

ghost use Rattle.std.specs.Prelude.{◌≡◌, ◌+◌, ◌/◌, ◌≤◌, ◌<◌, ltb, length, get_or};
ghost use Rattle.prelude.specs.Pick.{pick};
ghost use Rattle.prelude.specs.Search.{among, rank, Rising};
ghost use Rattle.table.specs.Blocks.{BLOCK, Counted};

// A rising table of words, and how many of them come before each block, as far as that is counted.
#[derive(Clone, Copy)]
pub struct Starts<'a> {
    pub words: &'a [u32],
    pub blocks: &'a [u32],
    ghost rising: { Rising words.now },
    ghost counted: { Counted blocks.now words.now },
}

// An index at most the rank of x: how many words come before x's block, if that is counted, else the beginning.
pub fn low(blocks: &[u32], x: u32) -> usize
    ensures { result ≡ get_or blocks.now (x / BLOCK) 0 }
{
    let b = (x / table::BLOCK_WORD) as usize;
    blocks.get(b).map_or(0, |&before| before as usize)
}

// An index at least the rank of x in a table of n words: how many come before the block after x's, if that is counted, else
// the end.
pub fn high(blocks: &[u32], n: usize, x: u32) -> usize
    ensures { result ≡ get_or blocks.now (x / BLOCK + 1) n }
{
    let b = (x / table::BLOCK_WORD) as usize + 1;
    blocks.get(b).map_or(n, |&before| before as usize)
}

// 1 if the word at i of a rising table is less than x, so that the rank of x is past i, else 0.
fn below(t: &[u32], i: usize, x: u32) -> usize
    requires { (Rising t.now) × (i < length t.now) }
    ensures { (result ≡ pick (ltb i (rank x t.now)) 1 0) × (result ≤ 1) }
{
    usize::from(t[i] < x)
}

// How many words are less than x, by looking at each. The tests are added up in a loop: a chain of `filter` and `count` makes a jump
// of each (measured: check of pointers then takes 1.45 times as many instructions).
fn count(t: &[u32], x: u32) -> usize
    ensures { result ≡ rank x t.now }
{
    let mut r = 0;
    for &word in t {
        r += usize::from(word < x);
    }
    r
}

// The rank, if it is at one of 16 words or just after them: the 16 tests do not depend on one another.
fn count_16(t: &[u32], base: usize, x: u32) -> usize
    requires { (Rising t.now) × (base ≤ rank x t.now) × (rank x t.now ≤ base + 16) × (base + 16 ≤ length t.now) }
    ensures { result ≡ rank x t.now }
{
    base + count(&t[base..base + 16], x)
}

impl Starts<'_> {
    // The start of a window of 16 words that holds the rank or ends at it; narrowed by blocks, then by quarters. Each step
    // looks at three words and adds their tests up, so that no step depends on a branch prediction. If fewer words are
    // left, the last 16 are taken.
    fn narrow(self, x: u32) -> usize
        requires { 16 ≤ length self.words.now }
        ensures { (result ≤ rank x self.entry.words.now) × (rank x self.entry.words.now ≤ result + 16) × (result + 16 ≤ length self.entry.words.now) }
    {
        let t = self.words;
        let last = t.len() - 16;
        // the rank is one of lo to lo + size
        let mut lo = low(self.blocks, x);
        let mut size = high(self.blocks, t.len(), x) - lo;
        while 17 <= size {
            let q = size / 4;
            lo += q * (below(t, lo + q, x) + below(t, lo + 2 * q, x) + below(t, lo + 3 * q, x));
            size -= 3 * q;
        }
        lo.min(last)
    }

    // How many words are less than x: x's index, if it is one of them.
    pub fn rank(self, x: u32) -> usize
        ensures { result ≡ rank x self.entry.words.now }
    {
        if self.words.len() < 16 {
            return count(self.words, x);
        }
        count_16(self.words, self.narrow(x), x)
    }

    // Whether x is one of the words.
    pub fn is_among(self, x: u32) -> bool
        ensures { result ≡ among x self.entry.words.now }
    {
        self.words.get(self.rank(x)).is_some_and(|&word| word == x)
    }
}

// How many words of a rising table are less than x, first looked for in 16 words around an index that is guessed.
pub fn rank_near(t: &[u32], guess: usize, x: u32) -> usize
    requires { Rising t.now }
    ensures { result ≡ rank x t.now }
{
    let n = t.len();
    if n < 16 {
        return count(t, x);
    }
    let base = guess.saturating_sub(8).min(n - 16);
    if t[base] <= x && x <= t[base + 15] {
        return count_16(t, base, x);
    }
    let starts = Starts {
        words: t,
        blocks: &[],
    };
    starts.rank(x)
}
