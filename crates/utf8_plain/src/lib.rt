// Plain bytes, those below 80, eight at a time (document 02, W-205).
#![tactic(auto)]

ghost use Rattle.std.specs.Prelude.{◌≡◌, ◌↔◌, true, not, ◌&&◌, ◌+◌, ◌*◌, ◌-◌, ◌/◌, ◌^◌, ◌≤◌, length, take, drop, position};
ghost use Rattle.little_endian.specs.LittleEndian.{load};
ghost use Rattle.utf8_plain.specs.Plain.{Plain, plain_front, are_plain};

use little_endian::Word;

// The highest bit of each byte of a word.
const HIGH_BITS: u64 = 0x8080_8080_8080_8080;

// The one test: whether the eight bytes of a word are all plain.
fn is_plain(word: u64) -> bool
    ensures { result ≡ are_plain word }
{
    word & HIGH_BITS == 0
}

// Whether the eight bytes of s from i on are all plain: by the test, of the word there.
pub fn is_plain_at(s: &[u8], i: usize) -> bool
    requires { i + 8 ≤ length s.now }
    ensures value { result ≡ are_plain (load 8 (drop i s.now)) }
    ensures plain { (result ≡ true) ↔ Plain (take 8 (drop i s.now)) }
{
    is_plain(u64::load(&s[i..]))
}

// How many of the eight bytes of s from i on are before the first that is not plain, 8 if all are plain: found by the lowest
// bit that is set among their highest bits.
pub fn plain_before(s: &[u8], i: usize) -> usize
    requires { i + 8 ≤ length s.now }
    ensures { result ≡ plain_front (take 8 (drop i s.now)) }
{
    let high_bits = u64::load(&s[i..]) & HIGH_BITS;
    (high_bits.trailing_zeros() / 8) as usize
}

// Whether s, of four to eight bytes, is all plain: by the test, of its first four bytes and its last four, which may overlap, as
// one word.
pub fn is_short_plain(s: &[u8]) -> bool
    requires { (4 ≤ length s.now) × (length s.now ≤ 8) }
    ensures value { result ≡ are_plain (load 4 s.now + 2 ^ 32 * load 4 (drop (length s.now - 4) s.now)) }
    ensures plain { (result ≡ true) ↔ Plain s.now }
{
    let first = u32::load(s);
    let last = u32::load(&s[s.len() - 4..]);
    is_plain(first as u64 + 0x1_0000_0000 * last as u64)
}

// Which of the pairs of words is the first with a byte that is not plain: by the test, of both words.
fn first_other(pairs: &[[u8; 16]]) -> Option<usize>
    ensures { result ≡ position (λ pair. not (are_plain (load 8 pair) && are_plain (load 8 (drop 8 pair)))) pairs.now }
{
    pairs
        .iter()
        .position(|pair| !(is_plain_at(pair, 0) & is_plain_at(pair, 8)))
}

// How many bytes at the front of s are passed by two plain words at a time: those before the first that is not plain, down to a
// multiple of sixteen.
pub fn skip_plain(s: &[u8]) -> usize
    ensures { result ≡ plain_front s.now / 16 * 16 }
{
    let (pairs, _) = s.as_chunks::<16>();
    16 * first_other(pairs).unwrap_or(pairs.len())
}
