// Runs the samples on standard input, a line each, and prints each line with its answer:
//
//   tokens HEX            the tokens of a region, each as its offset, kind, n, items, first and end; `end` after the last, or the error
//   read AT FILE          the value at AT: its name, then its numbers in the order of `reader::Value`
//   skip AT FILE          where the value at AT ends
//   item AT INDEX FILE    the offset of an item
//   follow AT FILE        the offset that pointers lead to, and the pointers met
//   lookup AT KEY FILE    the offset of the value of a key
//   body AT FILE          the first offset and the length of a body, and its bytes
//   check WORDS FILE      `ok`, the count of values and the entry, or the error; then the words of a table of WORDS words: the starts
//   depths WORDS WORDS FILE
//                         the same, then the words of a second table: the depths
//   write ROOM WORDS CALL CALL ..
//                         the answers of a new writer's calls, given ROOM bytes and WORDS words: `ok` or the error; then what it has
//                         written and the starts listed, `!` if the calls changed any other byte or word, and for a closed file the
//                         answer of `check` with 32 words
//
// calls.rt says what a CALL is.
//
// FILE, KEY and the bytes of a body are in hex, FILE and KEY `-` for no bytes; AT and INDEX are decimal, a larger one counts as 2^64-1.
// WORDS are decimal, a larger one counts as 32; ROOM and the N of z count as 1024 at most.
// An error is printed as its name and place, for a CALL as its name. The answer to any other query or CALL is `?`. A line that
// begins with # is printed as it is.
#![tactic(auto)]

mod calls;
mod parts;
mod print;
mod words;

use calls::call_all;
use leb128::Mode;
use parts::{JUNK_WORD, lend};
use print::{
    print_body_place, print_bytes, print_check, print_follow, print_head, print_offset, print_read,
    print_table,
};
use std::io;
use std::io::Input;
use words::{first_word, last_word, parse_hex, parse_number, skip_word};

// ---- the queries

fn answer_tokens(rt: &impl Print, region: &[u8]) -> io::Result<()> {
    let mut at: usize = 0;
    let mut pending: u64 = 0;
    while at < region.len() || 0 < pending {
        match scan::scan(region, at, 0 < pending, Mode::Strict) {
            Ok(h) => {
                print_head(rt, at, h)?;
                pending = pending.checked_sub(1).unwrap_or(h.items);
                at = h.end;
            }
            Err(e) => return print!(rt; " {e}"),
        }
    }
    print!(rt; " end")
}

// A lookup of the key that s spells in hex.
fn answer_lookup(rt: &impl Print, file: &[u8], at: usize, s: &[u8]) -> io::Result<()> {
    // fixed memory, as in all of the program: it takes no heap
    let mut space = [0u8; 16384];
    let key = parse_hex(s, &mut space);
    print_offset(rt, reader::lookup(file, at, key, Mode::Strict))
}

fn answer_body(rt: &impl Print, file: &[u8], at: usize) -> io::Result<()> {
    print_body_place(rt, reader::body_place(file, at, Mode::Strict))?;
    print_bytes(rt, reader::body(file, at, Mode::Strict))
}

// With a table of n words.
fn answer_check(rt: &impl Print, file: &[u8], n: usize) -> io::Result<()> {
    let mut table = [JUNK_WORD; 32];
    let starts = lend(&mut table, n);
    print_check(rt, checker::check(file, starts, Mode::Strict))?;
    print!(rt; ":")?;
    print_table(rt, starts)
}

// With tables of n and of m words.
fn answer_depths(rt: &impl Print, file: &[u8], n: usize, m: usize) -> io::Result<()> {
    let mut table = [JUNK_WORD; 32];
    let mut second = [JUNK_WORD; 32];
    let starts = lend(&mut table, n);
    let depths = lend(&mut second, m);
    print_check(rt, depths::depths(file, starts, depths, Mode::Strict))?;
    print!(rt; ":")?;
    print_table(rt, starts)?;
    print!(rt; " /")?;
    print_table(rt, depths)
}

// Prints the answer to a query with these arguments.
fn answer_query(rt: &impl Print, name: &[u8], args: &[u8], file: &[u8]) -> io::Result<()> {
    let n = parse_number(args);
    let rest = skip_word(args);
    match name {
        b"tokens" => answer_tokens(rt, file),
        b"read" => print_read(rt, reader::read(file, n, Mode::Strict)),
        b"skip" => print_offset(rt, reader::skip(file, n, Mode::Strict)),
        b"item" => print_offset(rt, reader::item(file, n, parse_number(rest), Mode::Strict)),
        b"follow" => print_follow(rt, reader::follow(file, n, Mode::Strict)),
        b"lookup" => answer_lookup(rt, file, n, first_word(rest)),
        b"body" => answer_body(rt, file, n),
        b"check" => answer_check(rt, file, n),
        b"depths" => answer_depths(rt, file, n, parse_number(rest)),
        b"write" => call_all(rt, n, parse_number(rest), skip_word(rest)),
        _ => print!(rt; " ?"),
    }
}

// ---- the lines

// Prints the answer to a line, whose last word is the file.
fn answer_line(rt: &impl Print, line: &[u8]) -> io::Result<()> {
    let mut space = [0u8; 16384];
    let file = parse_hex(last_word(line), &mut space);
    print!(rt; ":")?;
    answer_query(rt, first_word(line), skip_word(line), file)
}

fn run_line(rt: &impl Print, line: &[u8]) -> io::Result<()> {
    rt.write_all(line)?;
    match line {
        [] | [b'#', ..] => {}
        _ => answer_line(rt, line)?,
    }
    println!(rt)
}

fn run_lines(rt: &impl Print, s: &[u8]) -> io::Result<()> {
    for line in s.split_inclusive(|b| *b == b'\n') {
        run_line(rt, line.strip_suffix(b"\n").unwrap_or(line))?;
    }
    Ok(())
}

fn main(rt: HostRuntime) -> io::Result<()> {
    let mut buffer = [0u8; 65536];
    run_lines(&rt, input::read_full(&mut rt.reader(), &mut buffer)?)
}
