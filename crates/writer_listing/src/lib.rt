// The listed words, the first of a starts table (document 01, "Writer"): whether a word is among them, and how one more is listed.
#![tactic(auto)]

ghost use Rattle.std.specs.Prelude.{◌≡◌, ◌&&◌, ◌+◌, ◌≤◌, ◌<◌, ◌^◌, eqb, ltb, length, take, set};
ghost use Rattle.prelude.specs.Pick.{pick};
ghost use Rattle.prelude.specs.Search.{among};
ghost use Rattle.error.specs.Error.{LIMIT};

// 1 if the word at i is at most x, else 0.
fn until(t: &[u32], i: usize, x: u32) -> usize
    requires { i < length t.now }
    ensures { result ≤ 1 }
{
    usize::from(t[i] <= x)
}

// Where to look first: 64 words before the end, if the word there is at most x, since most targets are near; else at
// the first word.
fn near(t: &[u32], x: u32) -> usize
    requires { 0 < length t.now }
    ensures { result < length t.now }
{
    match t.len().checked_sub(64) {
        Some(i) if t[i] <= x => i,
        _ => 0,
    }
}

// The index at which a rising table would have x; for any other table, some index. Each step looks at three words and
// adds their tests up, so that no step depends on a branch prediction.
fn guess(t: &[u32], x: u32) -> usize
    requires { 0 < length t.now }
    ensures { result < length t.now }
{
    // the index is one of lo to lo + size - 1
    let mut lo = near(t, x);
    let mut size = t.len() - lo;
    while 4 <= size {
        let q = size / 4;
        lo += q * (until(t, lo + q, x) + until(t, lo + 2 * q, x) + until(t, lo + 3 * q, x));
        size -= 3 * q;
    }
    for _k in 1..size {
        lo += until(t, lo + 1, x);
    }
    lo
}

// Whether a table has x: it is first looked for where a rising table would have it.
fn is_among(t: &[u32], x: u32) -> bool
    ensures { result ≡ among x t.now }
{
    if t.is_empty() {
        return false;
    }
    t[guess(t, x)] == x || t.contains(&x)
}

// Whether `at` is below the bytes written and among the first `count` words of a table, which are listed; the answer means nothing if more bytes are
// written than LIMIT, or more words counted than the table has.
pub fn is_listed(written: usize, count: usize, starts: &[u32], at: usize) -> bool
    ensures { written ≤ LIMIT → count ≤ length starts.now → result ≡ ltb at written && among at (take count starts.now) }
{
    if error::LIMIT < written {
        return false;
    }
    if starts.len() < count {
        return false;
    }
    if written <= at {
        return false;
    }
    is_among(&starts[..count], at as u32)
}

// The same as `is_listed`; `at` is first looked for in word number `near`.
pub fn is_listed_near(written: usize, count: usize, starts: &[u32], at: usize, near: usize) -> bool
    ensures { written ≤ LIMIT → count ≤ length starts.now → result ≡ ltb at written && among at (take count starts.now) }
{
    if starts.len() < count {
        return false;
    }
    if near < count && starts[near] as usize == at {
        return at < written;
    }
    is_listed(written, count, starts, at)
}

// Lists a start in word number `count` if no item is left pending, and returns how many are listed.
pub fn list_start(left: u64, start: usize, count: usize, starts: &mut [u32]) -> usize
    requires { (start < 2 ^ 32) × (count < length starts.old) }
    ensures { (result ≡ pick (eqb left 0) (count + 1) count)
        × (starts.new ≡ pick (eqb left 0) (set starts.old count start) starts.old) }
{
    if left == 0 {
        starts[count] = start as u32;
        return count + 1;
    }
    count
}
