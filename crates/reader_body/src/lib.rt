// The body that a value at an offset of any file is or leads to (document 01, "Questions at an offset").
#![tactic(auto)]

ghost use Rattle.std.specs.Prelude.{◌≡◌, ◌≤◌};
ghost use Rattle.reader_body.specs.Body.{body_place_on, body_place_of, body_of, Placed};
ghost use Rattle.reader_body.specs.Answers.{body_answer};

use error::{Error, ErrorKind};
use leb128::Mode;
use scan::Head;

// Where a body is: its first offset, and its length.
#[derive(Clone, Copy, Debug, PartialEq, Eq)]
pub struct Place {
    pub first: usize,
    pub len: usize,
}

// The body of the value at `at` with head h. That first is at most end stays a clause, as in `reader_lookup`: specs/ compute with
// heads too, and as a ghost field it would be a proof in each of them.
fn body_place_on(at: usize, h: Head) -> Result<Place, Error>
    requires { h.first ≤ h.end }
    ensures { body_answer result ≡ body_place_on at h }
{
    match h.kind {
        kind::KIND_TEXT | kind::KIND_BYTES => Ok(Place {
            first: h.first,
            len: h.end - h.first,
        }),
        // WRONG_KIND: neither a text nor a byte string
        _ => Err(Error {
            kind: ErrorKind::WrongKind,
            place: at,
        }),
    }
}

// Where the bytes are of the text or byte string that the value at `at` is or leads to.
pub fn body_place(file: &[u8], at: usize, mode: Mode) -> Result<Place, Error>
    ensures { body_answer result ≡ body_place_of mode file.now at }
{
    let (value, head) = reader_follow::follow_head(file, at, mode)?;
    body_place_on(value.at, head)
}

// The same as the part of the file that lies there; no bytes on an error, which `body_place` reports.
#[tactic(auto, using(crate::proofs::Laws::parts))]
pub fn body(file: &[u8], at: usize, mode: Mode) -> &[u8]
    ensures { Placed file.entry.ref_ptr (body_place_of mode file.now at) result.ref_ptr × (result.now ≡ body_of mode file.now at) }
{
    match body_place(file, at, mode) {
        Ok(Place { first, len }) => &file[first..first + len],
        Err(_) => &file[..0],
    }
}
