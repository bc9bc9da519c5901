// The offset that a token names, and its distance (document 01, "Writer").
#![tactic(auto)]

ghost use Rattle.std.specs.Prelude.{◌≡◌, ◌-◌, leb, get_or};
ghost use Rattle.prelude.specs.Pick.{pick};

// How far the value at `at` is before a header at the offset w, as the file stores it; 0 if it is not before it.
pub fn distance(w: usize, at: usize) -> u64
    ensures { result ≡ w - at - 1 }
{
    w.saturating_sub(at).saturating_sub(1) as u64
}

// The offset that a token of this kind names: that in word number `number` of the table; 0 if the kind names none, or the table has no such word.
pub fn named(kind: u8, starts: &[u32], number: usize) -> usize
    ensures { result ≡ pick (leb 14 kind) (get_or starts.now number 0) 0 }
{
    match starts.get(number) {
        Some(&word) if kind::KIND_REFERENCE <= kind => word as usize,
        _ => 0,
    }
}

// The number of a token written at the offset w: n, or the distance of the value at `at` if the kind names one.
pub fn moved_number(kind: u8, n: u64, w: usize, at: usize) -> u64
    ensures { result ≡ pick (leb 14 kind) (w - at - 1) n }
{
    if kind < kind::KIND_REFERENCE {
        n
    } else {
        distance(w, at)
    }
}
