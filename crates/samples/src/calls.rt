// The calls of a line that begins with `write`.
//
// A CALL is a letter and its arguments:
//
//   f t n                 false, true, null
//   iZ sBITS dBITS        an integer, the bits of a float32 and of a float64
//   "HEX #HEX zN          a text, bytes, N zero bytes
//   vINDEX rAT pAT        a variant with no argument, a reference, a pointer
//   aN mN gTAG oINDEX xINDEX,N
//                         open an array of N items, a map of N pairs, a tag, a variant of one argument and of N
//   cAT                   close
//
// Its numbers are decimal; one too large for its argument counts as the largest, a Z too small as the least. With @ROOM,WORDS after it a
// CALL gets no more than those bytes and words.
use super::parts::{JUNK_BYTE, JUNK_WORD, first, lend};
use super::print::{print_bytes, print_check, print_table, print_write};
use super::words::{cut_after, cut_before, parse_hex, parse_integer, parse_number, parse_number32};
use error::ErrorKind;
use leb128::Mode;
use std::io;
use writer::{Scalar, Writer};

// ---- one call

// Makes the call of a letter and its arguments s; none for another letter.
fn call_letter(
    w: &mut Writer,
    letter: u8,
    s: &[u8],
    out: &mut [u8],
    starts: &mut [u32],
) -> Option<Result<(), ErrorKind>> {
    let mut space = [0u8; 1024];
    Some(match letter {
        b'f' => w.scalar(Scalar::False, out, starts),
        b't' => w.scalar(Scalar::True, out, starts),
        b'n' => w.scalar(Scalar::Null, out, starts),
        b'i' => w.integer(parse_integer(s), out, starts),
        b's' => w.float32(parse_number32(s), out, starts),
        b'd' => w.float64(parse_number(s) as u64, out, starts),
        b'"' => w.text(parse_hex(s, &mut space), out, starts),
        b'#' => w.bytes(parse_hex(s, &mut space), out, starts),
        b'z' => w.bytes(first(&space, parse_number(s)), out, starts),
        b'v' => w.variant(parse_number32(s), out, starts),
        b'r' => w.reference(parse_number(s), out, starts),
        b'p' => w.pointer(parse_number(s), out, starts),
        b'a' => w.open_array(parse_number(s) as u64, out, starts),
        b'm' => w.open_map(parse_number(s) as u64, out, starts),
        b'g' => w.open_tag(parse_number(s) as u64, out, starts),
        b'o' => w.open_variant1(parse_number32(s), out, starts),
        b'x' => {
            let index = parse_number32(cut_before(s, b','));
            let items = parse_number(cut_after(s, b',')) as u64;
            w.open_variant_n(index, items, out, starts)
        }
        b'c' => w.close(parse_number(s), out, starts),
        _ => return None,
    })
}

// Makes the call that a word spells, and prints its answer.
fn call_word(
    rt: &impl Print,
    w: &mut Writer,
    word: &[u8],
    out: &mut [u8],
    starts: &mut [u32],
) -> io::Result<()> {
    match word.split_first() {
        Some((&letter, s)) => match call_letter(w, letter, s, out, starts) {
            Some(answer) => print_write(rt, answer),
            None => print!(rt; " ?"),
        },
        None => Ok(()),
    }
}

// The same; if the word has an @, with no more of the output and the table than it says.
fn call_lent(
    rt: &impl Print,
    w: &mut Writer,
    word: &[u8],
    out: &mut [u8],
    starts: &mut [u32],
) -> io::Result<()> {
    let lent = cut_after(word, b'@');
    if lent.is_empty() {
        return call_word(rt, w, word, out, starts);
    }
    let room = parse_number(cut_before(lent, b','));
    let words = parse_number(cut_after(lent, b','));
    call_word(
        rt,
        w,
        cut_before(word, b'@'),
        lend(out, room),
        lend(starts, words),
    )
}

// ---- all calls of a line

// Whether nothing from `at` on has changed.
fn is_junk<T: PartialEq + Copy>(part: &[T], at: usize, junk: T) -> bool {
    part.iter().skip(at).all(|x| *x == junk)
}

fn check_closed(rt: &impl Print, file: &[u8]) -> io::Result<()> {
    let mut starts = [JUNK_WORD; 32];
    print_check(rt, checker::check(file, &mut starts, Mode::Strict))
}

// What the calls have written and listed.
fn print_written(rt: &impl Print, w: Writer, out: &[u8], starts: &[u32]) -> io::Result<()> {
    let state = w.state;
    let file = first(out, state.written);
    print!(rt; " =")?;
    print_bytes(rt, file)?;
    print!(rt; " /")?;
    print_table(rt, first(starts, state.count))?;
    if !is_junk(out, state.written, JUNK_BYTE) || !is_junk(starts, state.count, JUNK_WORD) {
        print!(rt; " !")?;
    }
    if state.closed {
        print!(rt; " /")?;
        check_closed(rt, file)?;
    }
    Ok(())
}

// Makes the calls that the words of s spell, with an output of `room` bytes and a table of n words.
pub(crate) fn call_all(rt: &impl Print, room: usize, n: usize, s: &[u8]) -> io::Result<()> {
    let mut memory = [JUNK_BYTE; 1024];
    let mut table = [JUNK_WORD; 32];
    let out = lend(&mut memory, room);
    let starts = lend(&mut table, n);
    let mut w = Writer::new();
    for word in s.split(|b| *b == b' ') {
        call_lent(rt, &mut w, word, out, starts)?;
    }
    print_written(rt, w, out, starts)
}
