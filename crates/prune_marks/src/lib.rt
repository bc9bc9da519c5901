// A table of starts that keeps a mark and a number with each: a word is 256 times a start, twice a digit below 128, and
// 1 if it is marked. The digits of four words keep how many words are marked up to them and with them.
#![tactic(auto)]

ghost use Rattle.std.specs.Prelude.{◌≡◌, true, false, [], ◌∷◌, suc, ◌+◌, ◌*◌, ◌%◌, ◌≤◌, ◌<◌, ◌^◌, leb, length, take, get_or, set, replicate, count_by};
ghost use Rattle.prelude.specs.Pick.{pick};
ghost use Rattle.prelude.specs.Search.{rank, Rising};
ghost use Rattle.table.specs.Blocks.{Counted, Below};
ghost use Rattle.prune_marks.specs.Marks.{starts_in, is_marked, marks_in, kept, digit, four, NumberedTo, Indexed, Numbers};
ghost use Rattle.prune_marks.specs.Internal.{digits_of, Digits};

// Makes each start a word without a mark.
pub fn pack(t: &mut [u32])
    requires { Below (2 ^ 24) t.old }
    ensures { (starts_in t.new ≡ t.old) × (marks_in t.new ≡ replicate (length t.old) false) }
{
    for word in t.iter_mut() {
        *word *= 256;
    }
}

// Makes each word its start.
pub fn unpack(t: &mut [u32])
    ensures { t.new ≡ starts_in t.old }
{
    for word in t.iter_mut() {
        *word /= 256;
    }
}

// The start that word number i keeps.
pub fn start_of(t: &[u32], i: usize) -> usize
    requires { i < length t.now }
    ensures { result ≡ get_or (starts_in t.now) i 0 }
{
    (t[i] / 256) as usize
}

// Where value number i ends, in a region of len bytes: where the next one starts; the last one, at the region's end. `depths_value`
// has the same of a table whose words are the starts themselves; one function for both would take the start of a word as a closure.
pub fn end_of(t: &[u32], i: usize, len: usize) -> usize
    requires { i < length t.now }
    ensures { result ≡ get_or (starts_in t.now) (suc i) len }
{
    match t.get(i + 1) {
        Some(&next) => (next / 256) as usize,
        None => len,
    }
}

// Whether word number i is marked.
pub fn is_marked(t: &[u32], i: usize) -> bool
    requires { i < length t.now }
    ensures { result ≡ get_or (marks_in t.now) i false }
{
    t[i] % 2 == 1
}

// Marks word number i; past the last nothing changes.
pub fn set_mark(t: &mut [u32], i: usize)
    ensures { (starts_in t.new ≡ starts_in t.old) × (marks_in t.new ≡ set (marks_in t.old) i true) }
{
    // not `get_mut`, after which a proof knows the table's length alone
    if i < t.len() {
        t[i] = t[i] / 2 * 2 + 1;
    }
}

// Where x would be among the n starts of its block, if they were as far from each other.
fn guess(n: usize, x: u32) -> usize {
    if table::BLOCK < n {
        return 0;
    }
    (x % table::BLOCK_WORD) as usize * n / table::BLOCK
}

// How many starts are less than x: the index of the word that keeps x, if one does. `blocks` has how many starts come
// before each block, as far as these are counted. A word is less than 256 * x exactly if its start is less than x.
pub fn find(t: &[u32], blocks: &[u32], x: u32) -> usize
    requires { (Indexed t.now blocks.now) × (x < 2 ^ 24) }
    ensures { result ≡ rank x (starts_in t.now) }
{
    let lo = table_search::low(blocks, x);
    let hi = table_search::high(blocks, t.len(), x);
    lo + table_search::rank_near(&t[lo..hi], guess(hi - lo, x), 256 * x)
}

// How many words are marked.
fn count(words: &[u32]) -> usize
    ensures { result ≡ count_by is_marked words.now }
{
    words.iter().filter(|word| **word % 2 == 1).count()
}

// Stores the digit d in word number i.
fn set_digit(t: &mut [u32], i: usize, d: u32)
    requires { (i < length t.old) × (d < 128) }
    ensures { Digits t.old t.new i (d ∷ []) }
{
    t[i] = t[i] / 256 * 256 + 2 * d + t[i] % 2;
}

// Stores k in the digits of four words from number i on.
fn set_four(t: &mut [u32], i: usize, k: u32)
    requires { i + 4 ≤ length t.old }
    ensures { Digits t.old t.new i (digits_of k) }
{
    set_digit(t, i, k % 128);
    set_digit(t, i + 1, k / 128 % 128);
    set_digit(t, i + 2, k / 128 / 128 % 128);
    set_digit(t, i + 3, k / 128 / 128 / 128 % 128);
}

// Numbers the marks: each four words keep how many words are marked up to them and with them.
pub fn number(t: &mut [u32])
    requires { length t.old < 2 ^ 28 }
    ensures { Numbers t.old t.new }
{
    let mut k: usize = 0;
    // not `chunks_exact_mut`, after which a proof knows the table's length alone
    for g in 0..t.len() / 4 {
        k += count(&t[4 * g..4 * g + 4]);
        set_four(t, 4 * g, k as u32);
    }
}

// The digit of word number i.
fn digit_at(t: &[u32], i: usize) -> usize
    requires { i < length t.now }
    ensures { (result ≡ digit (get_or t.now i 0)) × (result < 128) }
{
    (t[i] / 2 % 128) as usize
}

// The number that four words from number i on keep.
fn number_at(t: &[u32], i: usize) -> usize
    requires { i + 4 ≤ length t.now }
    ensures { (result ≡ four t.now i) × (result < 2 ^ 28) }
{
    digit_at(t, i)
        + 128 * digit_at(t, i + 1)
        + 16384 * digit_at(t, i + 2)
        + 2097152 * digit_at(t, i + 3)
}

// 1 if word number i is marked and j is at least r, else 0: a product, so that nothing depends on a branch prediction.
fn mark_from(t: &[u32], i: usize, j: usize, r: usize) -> usize
    requires { i < length t.now }
    ensures { (result ≡ get_or t.now i 0 % 2 * pick (leb r j) 1 0) × (result ≤ 1) }
{
    (t[i] % 2) as usize * usize::from(r <= j)
}

// How many of the four words from number i on are marked, without the first r.
fn marks_from(t: &[u32], i: usize, r: usize) -> usize
    requires { (i + 4 ≤ length t.now) × (r < 4) }
    ensures { kept (take (i + r) (marks_in t.now)) + result ≡ kept (take (i + 4) (marks_in t.now)) }
{
    mark_from(t, i, 0, r)
        + mark_from(t, i + 1, 1, r)
        + mark_from(t, i + 2, 2, r)
        + mark_from(t, i + 3, 3, r)
}

// How many words are marked before number i, one of the last words that make no four: the number that the four words before
// them keep, and at most three marks.
fn place_at_end(t: &[u32], i: usize) -> usize
    requires { (i ≤ length t.now) × (NumberedTo (length t.now) t.now) }
    ensures { result ≡ kept (take i (marks_in t.now)) }
{
    if i < 4 {
        return count(&t[..i]);
    }
    let g = i / 4;
    number_at(t, 4 * (g - 1)) + count(&t[4 * g..i])
}

// How many words are marked before number i: the number that i's own four words keep, less their marks from i on.
pub fn place(t: &[u32], i: usize) -> usize
    requires { (i ≤ length t.now) × (NumberedTo (length t.now) t.now) }
    ensures { result ≡ kept (take i (marks_in t.now)) }
{
    let first = i / 4 * 4;
    if t.len() < first + 4 {
        return place_at_end(t, i);
    }
    number_at(t, first) - marks_from(t, first, i % 4)
}
