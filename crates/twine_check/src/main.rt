// Checks a plan file of at most 16,384 bytes from standard input, and prints one line: `ok COUNT ENTRY`, or an error's
// `NAME PLACE`. A longer input is `TOO_LONG 0`. For an input that can't be read there is no line, but a message on
// standard error.
#![tactic(auto)]

ghost use Rattle.std.specs.Prelude.{◌≡◌, length};
ghost use Rattle.leb128.specs.declared.Mode.TheVariants.{Strict};
ghost use Rattle.checker.specs.Check.{checked, check_of};
ghost use Rattle.checker.specs.Answers.{check_answer};

use checker::Summary;
use error::{Error, ErrorKind};
use leb128::Mode;
use std::io;
use std::io::Input;

fn print_answer(rt: &impl Print, answer: Result<Summary, Error>) -> io::Result<()> {
    match answer {
        Ok(Summary { count, entry }) => println!(rt; "ok {count} {entry}"),
        Err(e) => println!(rt; "{e}"),
    }
}

// Checks a plan file in the strict mode (document 02, W-203).
fn check(file: &[u8], starts: &mut [u32]) -> Result<Summary, Error>
    ensures { checked (check_answer result) starts.new ≡ check_of Strict file.now (length starts.old) }
{
    checker::check(file, starts, Mode::Strict)
}

fn main(rt: HostRuntime) -> io::Result<()> {
    let mut buffer = [0u8; 16385];
    let Ok(file) = input::read_full(&mut rt.reader(), &mut buffer) else {
        return eprintln!(rt; "twine_check: standard input can't be read");
    };
    if 16384 < file.len() {
        return print_answer(
            &rt,
            Err(Error {
                kind: ErrorKind::TooLong,
                place: 0,
            }),
        );
    }
    // a value has at least one byte, so these words are never too few
    let mut starts = [0u32; 16384];
    print_answer(&rt, check(file, &mut starts))
}
