// Whether bytes are text (document 01, "Row of a file", and W-202): UTF-8 by RFC 3629.
#![tactic(auto)]

ghost use Rattle.std.specs.Prelude.{◌≡◌, ◌+◌, ◌≤◌, ◌<◌, length, drop, IfSome};
ghost use Rattle.utf8.specs.Text.{forms, lead, is_text};
ghost use Rattle.utf8.specs.Internal.{due_of, allowed, is_text_after};

// The bytes due of a character: how many, and, if some are due, the range of the next of them; those after it are from 80 to BF.
#[derive(Clone, Copy)]
struct Due {
    left: u8,
    low: u8,
    high: u8,
}

impl Due {
    fn new(left: u8, low: u8, high: u8) -> Self
        ensures { result ≡ record { left = left; low = low; high = high } }
    {
        Due { left, low, high }
    }
}

// What is due after b, the first byte of a character; `None` if no character begins with it. Tests in the order of the table: a
// `match` on its ranges takes 1.2 to 3 times as long, measured.
#[tactic(auto, using(crate::proofs::Steps::rows))]
fn lead(b: u8) -> Option<Due>
    ensures { due_of result ≡ lead forms b }
{
    if b <= 0x7F {
        return Some(Due::new(0, 0x80, 0xBF));
    }
    if (0xC2 <= b) & (b <= 0xDF) {
        return Some(Due::new(1, 0x80, 0xBF));
    }
    if b == 0xE0 {
        return Some(Due::new(2, 0xA0, 0xBF));
    }
    if (0xE1 <= b) & (b <= 0xEC) {
        return Some(Due::new(2, 0x80, 0xBF));
    }
    if b == 0xED {
        return Some(Due::new(2, 0x80, 0x9F));
    }
    if (0xEE <= b) & (b <= 0xEF) {
        return Some(Due::new(2, 0x80, 0xBF));
    }
    if b == 0xF0 {
        return Some(Due::new(3, 0x90, 0xBF));
    }
    if (0xF1 <= b) & (b <= 0xF3) {
        return Some(Due::new(3, 0x80, 0xBF));
    }
    if b == 0xF4 {
        return Some(Due::new(3, 0x80, 0x8F));
    }
    None
}

// Whether s has a byte at i, from due's low to its high.
#[tactic(auto, unfolding(crate::specs::Internal::allowed))]
fn is_allowed(s: &[u8], i: usize, due: Due) -> bool
    ensures { result ≡ allowed s.now i due }
{
    s.get(i).is_some_and(|b| (due.low..=due.high).contains(b))
}

// How many bytes of s may be passed, if some may: s is text exactly if so, and the bytes after them are text. The code takes
// the first character; the contract says no more than it needs.
fn character(s: &[u8]) -> Option<usize>
    requires { 0 < length s.now }
    ensures within { IfSome result (λ n. (0 < n) × (n ≤ length s.now)) }
    ensures rest { is_text_after result s.now ≡ is_text s.now }
{
    // BAD_TEXT: no character begins with it
    let mut due = lead(s[0])?;
    // most letters beyond ASCII have two bytes, and are passed faster without the loop
    if due.left == 1 {
        if is_allowed(s, 1, due) {
            return Some(2);
        }
        // BAD_TEXT: as below
        return None;
    }
    let size = 1 + due.left as usize;
    for i in 1..size {
        // BAD_TEXT: the character is incomplete, or has a byte that is not allowed there
        if !is_allowed(s, i, due) {
            return None;
        }
        due = Due::new(due.left - 1, 0x80, 0xBF);
    }
    Some(size)
}

// Passes plain bytes at the front of the word at `from`, and then characters. The offset reached, or `None` if the bytes there are
// not a character. Where it stops is for speed, and not in the contract.
fn pass_characters(s: &[u8], from: usize) -> Option<usize>
    requires { from + 8 ≤ length s.now }
    ensures within { IfSome result (λ i. (from < i) × (i ≤ length s.now)) }
    ensures rest { is_text_after result s.now ≡ is_text (drop from s.now) }
{
    let mut i = from + utf8_plain::plain_before(s, from);
    // from character to character, by their sizes; the offset is the answer
    while i < s.len() {
        if s[i] < 0x80 {
            i += 1;
            // words again, if two plain bytes come: one alone may be a blank among letters beyond ASCII
            if s.get(i).is_some_and(|b| *b < 0x80) {
                break;
            }
        } else {
            i += character(&s[i..])?;
        }
    }
    Some(i)
}

// Whether the bytes of s from `from` on are text, character by character.
fn is_text_from(s: &[u8], from: usize) -> bool
    requires { from ≤ length s.now }
    ensures { result ≡ is_text (drop from s.now) }
{
    let mut rest = &s[from..];
    while !rest.is_empty() {
        let Some(size) = character(rest) else {
            return false;
        };
        rest = &rest[size..];
    }
    true
}

// Whether s, of eight bytes or more, is text. Plain bytes are passed by words; if a word has a byte that is not plain,
// characters are passed, and then words again. If fewer than eight bytes remain, they are among the last eight, the last word: if
// that is plain, so are they; if not, they are tested character by character. A `while`, here and above: a step shows only then how far
// it goes.
fn is_long_text(s: &[u8]) -> bool
    requires { 8 ≤ length s.now }
    ensures { result ≡ is_text s.now }
{
    let mut i = utf8_plain::skip_plain(s);
    // by words and by characters in turn, so no iterator over one of them
    while 8 <= s.len() - i {
        if utf8_plain::is_plain_at(s, i) {
            i += 8;
        } else {
            let Some(after) = pass_characters(s, i) else {
                return false;
            };
            i = after;
        }
    }
    utf8_plain::is_plain_at(s, s.len() - 8) || is_text_from(s, i)
}

// Whether s is text.
pub fn is_text(s: &[u8]) -> bool
    ensures { result ≡ is_text s.now }
{
    if 8 <= s.len() {
        return is_long_text(s);
    }
    if 4 <= s.len() && utf8_plain::is_short_plain(s) {
        return true;
    }
    is_text_from(s, 0)
}
