// The mode, as C gives it, and the answers of check and of the queries, as C gets them.
#![tactic(auto)]

ghost use Rattle.std.specs.Prelude.{◌≡◌, ◌≤◌, length};
ghost use Rattle.reader_region.specs.Answers.{offset_answer};
ghost use Rattle.reader_region.specs.Internal.{Peeked};
ghost use Rattle.reader_follow.specs.Answers.{follow_answer};
ghost use Rattle.reader_body.specs.Answers.{body_answer};
ghost use Rattle.checker.specs.Answers.{check_answer};
ghost use Rattle.abi_error.specs.Reply.{reply, answer_c};
ghost use Rattle.abi_answer.specs.Answers.{mode_of, offset_c, pair_c};
ghost use Rattle.abi_answer.specs.Read.{float_bits, row_of, read_c};

use checker::Summary;
use error::Error;
use leb128::Mode;
use little_endian::Word;
use reader_body::Place;
use reader_follow::Followed;
use scan::Head;

// 1 is the tolerant mode, any other number the strict one.
pub fn mode_of(n: u32) -> Mode
    ensures { result ≡ mode_of n }
{
    match n {
        1 => Mode::Tolerant,
        _ => Mode::Strict,
    }
}

// Each answer of two words is turned into them here; `abi_error::answer` is the one function of all. By `Result::map` with a closure no
// proof of what is returned was found.

// An offset and 0.
pub fn answer_offset(answer: Result<usize, Error>, out: &mut [u64; 2]) -> u32
    ensures { reply result out.new ≡ offset_c (offset_answer answer) }
{
    match answer {
        Ok(at) => abi_error::answer(Ok([at as u64, 0]), out),
        Err(e) => abi_error::answer(Err(e), out),
    }
}

// Count and entry.
pub fn answer_entry(answer: Result<Summary, Error>, out: &mut [u64; 2]) -> u32
    ensures { reply result out.new ≡ pair_c (check_answer answer) }
{
    match answer {
        Ok(Summary { count, entry }) => abi_error::answer(Ok([count as u64, entry as u64]), out),
        Err(e) => abi_error::answer(Err(e), out),
    }
}

// Offset and hops.
pub fn answer_follow(answer: Result<Followed, Error>, out: &mut [u64; 2]) -> u32
    ensures { reply result out.new ≡ pair_c (follow_answer answer) }
{
    match answer {
        Ok(Followed { at, hops }) => abi_error::answer(Ok([at as u64, hops as u64]), out),
        Err(e) => abi_error::answer(Err(e), out),
    }
}

// First offset and length.
pub fn answer_body(answer: Result<Place, Error>, out: &mut [u64; 2]) -> u32
    ensures { reply result out.new ≡ pair_c (body_answer answer) }
{
    match answer {
        Ok(Place { first, len }) => abi_error::answer(Ok([first as u64, len as u64]), out),
        Err(e) => abi_error::answer(Err(e), out),
    }
}

// ---- one value

// What `read` returns for a value, besides its kind: its number, and how many bytes or items follow.
#[derive(Clone, Copy)]
struct Row {
    number: u64,
    count: u64,
}

fn float_bits(file: &[u8], h: Head) -> u64
    requires { h.first ≤ length file.now }
    ensures { result ≡ float_bits file.now h }
{
    let bytes = &file[h.first..];
    match h.n {
        0 => u32::load(bytes) as u64,
        _ => u64::load(bytes),
    }
}

// The row for a value with head h at `at`; kinds 9 and 13 are reserved.
#[tactic(auto, unfolding(crate::specs::Read::row_of, kind::specs::Kind::rule))]
fn row_of(file: &[u8], at: usize, h: Head) -> Row
    requires { Peeked file.now at h }
    ensures { result ≡ row_of file.now at h }
{
    let n = h.n;
    let body = (h.end - h.first) as u64;
    let (number, count) = match h.kind {
        kind::KIND_SCALAR | kind::KIND_INTEGER | kind::KIND_VARIANT => (n, 0),
        // -n-1 in two's complement
        kind::KIND_NEGATIVE => (u64::MAX - n, 0),
        kind::KIND_FLOAT => (float_bits(file, h), body),
        kind::KIND_TEXT | kind::KIND_BYTES => (body, body),
        kind::KIND_REFERENCE | kind::KIND_POINTER => (at as u64 - n - 1, 0),
        // an array, a map, a tag, a variant with items
        _ => (n, h.items),
    };
    Row { number, count }
}

// The four words of the value at `at`.
fn words_of(file: &[u8], at: usize, mode: Mode) -> Result<[u64; 4], Error>
    ensures { answer_c 4 result ≡ read_c mode file.now at }
{
    let h = reader_region::peek(file, at, mode)?;
    let row = row_of(file, at, h);
    Ok([h.kind as u64, row.number, h.first as u64, row.count])
}

// Kind, number, the offset just after the numbers, and count; an error's place and zeros.
pub fn read(file: &[u8], at: usize, out: &mut [u64; 4], mode: Mode) -> u32
    ensures { reply result out.new ≡ read_c mode file.now at }
{
    abi_error::answer(words_of(file, at, mode), out)
}
