// The answer of prune, as C gets it.
#![tactic(auto)]

ghost use Rattle.std.specs.Prelude.{◌≡◌};
ghost use Rattle.abi_error.specs.Reply.{reply};
ghost use Rattle.prune.specs.Answers.{prune_answer};
ghost use Rattle.abi_prune.specs.Prune.{pruned_c};

use error::Error;
use prune::{NewFile, PruneError};

// Length, count and entry of the new file; an error's place, or 0 if it has none, and zeros.
pub fn answer_prune(answer: Result<NewFile, PruneError>, told: &mut [u64; 3]) -> u32
    ensures { reply result told.new ≡ pruned_c (prune_answer answer) }
{
    match answer {
        Ok(
            NewFile {
                length,
                count,
                entry,
            },
        ) => abi_error::answer(Ok([length as u64, count as u64, entry as u64]), told),
        Err(PruneError::BadFile(e)) => abi_error::answer(Err(e), told),
        Err(PruneError::NoFit(kind)) => abi_error::answer(Err(Error { kind, place: 0 }), told),
    }
}
