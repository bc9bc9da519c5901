// What a call answers in C: an error's number, 0 for none, and words in an array of the caller. Crate twine exports the calls.
#![tactic(auto)]

ghost use Rattle.std.specs.Prelude.{◌≡◌};
ghost use Rattle.abi_error.specs.Reply.{name_c, reply, answer_c};

use error::Error;

// The version of the C interface. `twine::twine_abi_2` answers it, and has it in its name: a change of a shape raises both.
pub fn abi() -> u32
    ensures { result ≡ 2 }
{
    2
}

// `error::name_of`: the name, with zeros after it; zeros alone if no error has this number.
#[tactic(auto, unfolding(crate::specs::Reply::name_c))]
pub fn spell_error(number: u32, name: &mut [u8; 11]) -> u32
    ensures { reply result name.new ≡ reply 0 (name_c number) }
{
    name.fill(0);
    emit::copy(name, error::name_of(number).as_bytes());
    0
}

// The words of an answer; an error's place, and zeros after it.
pub fn answer<const N: usize>(answer: Result<[u64; N], Error>, out: &mut [u64; N]) -> u32
    ensures { reply result out.new ≡ answer_c N answer.entry }
{
    match answer {
        Ok(words) => {
            *out = words;
            0
        }
        Err(Error { kind, place }) => {
            out.fill(0);
            if let Some(first) = out.first_mut() {
                *first = place as u64;
            }
            error::number(kind)
        }
    }
}
