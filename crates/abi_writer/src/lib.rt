// The writer's state as C has it, five words in the caller's memory, and what a call answers.
#![tactic(auto)]

ghost use Rattle.std.specs.Prelude.{◌≡◌};
ghost use Rattle.abi_error.specs.Reply.{reply};
ghost use Rattle.writer.specs.Step.{fresh};
ghost use Rattle.abi_writer.specs.Calls.{writer_of, words_of, truth, settle_c};

use error::ErrorKind;
use writer::{Scalar, Writer};
use writer_refusal::State;

// The words of a writer's state.
fn words_of(w: State) -> [u64; 5]
    ensures { result ≡ words_of w }
{
    [
        w.written as u64,
        w.count as u64,
        w.pending,
        w.start as u64,
        w.closed as u64,
    ]
}

// The words of a new writer.
pub fn begin(state: &mut [u64; 5]) -> u32
    ensures { reply result state.new ≡ reply 0 (words_of fresh) }
{
    *state = words_of(Writer::new().state);
    0
}

// The writer that the five words stand for. Neither type is of this crate, so that no `From` can say it.
pub fn writer_of(state: &[u64; 5]) -> Writer
    ensures { result.state ≡ writer_of state.now }
{
    let [written, count, pending, start, closed] = *state;
    Writer {
        state: State {
            written: written as usize,
            count: count as usize,
            pending,
            start: start as usize,
            closed: closed != 0,
        },
    }
}

// Stores the next state; a refused call leaves the words as they were.
pub fn settle(answer: Result<(), ErrorKind>, writer: Writer, state: &mut [u64; 5]) -> u32
    ensures { reply result state.new ≡ settle_c answer writer.state state.old }
{
    match answer {
        Ok(()) => {
            *state = words_of(writer.state);
            0
        }
        Err(e) => error::number(e),
    }
}

// The scalar for a bool; neither type is of this crate.
pub fn truth(value: bool) -> Scalar
    ensures { result ≡ truth value }
{
    match value {
        true => Scalar::True,
        false => Scalar::False,
    }
}
