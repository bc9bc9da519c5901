// The tables and the outputs that a query lends, and the first n elements of one: all of them if it has fewer.

// What each word of a table is before the query.
pub(crate) const JUNK_WORD: u32 = 0xaaaaaaaa;

// What each byte of an output is before the calls.
pub(crate) const JUNK_BYTE: u8 = 0xaa;

pub(crate) fn lend<T>(part: &mut [T], n: usize) -> &mut [T] {
    let n = n.min(part.len());
    &mut part[..n]
}

pub(crate) fn first<T>(part: &[T], n: usize) -> &[T] {
    part.get(..n).unwrap_or(part)
}
