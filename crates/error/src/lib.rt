// The errors of document 01 ("Numbers of refusal") and of document 02 (W-201): their numbers and their names.
#![tactic(auto)]

ghost use Rattle.std.specs.Prelude.{◌≡◌, get_or, [], Some};
ghost use Rattle.error.specs.Error.{number_of, name_of, names, shown};

use std::fmt;

// The most bytes that a file may have.
pub const LIMIT: usize = 16777216;

// What went wrong. The variants are in the order of their numbers, from 1.
#[derive(Clone, Copy, Debug, PartialEq, Eq)]
pub enum ErrorKind {
    // The file has no bytes.
    Empty = 1,
    // The file is over 16,777,216 bytes long.
    TooLong = 2,
    // The region ends inside a number or a fixed body, or an item is wanted at the region's end.
    Trunc = 3,
    // A reserved kind or low nibble.
    Reserved = 4,
    // The last byte of a number is 0 and is not its first.
    Overlong = 5,
    // A number over its kind's bound or over 64 bits.
    Range = 6,
    // An item of a kind that is not an immediate.
    Nested = 7,
    // A text whose bytes are not UTF-8.
    BadText = 8,
    // A target that is not the start of a value that ended before.
    BadTarget = 9,
    // One value more than the table has words.
    Full = 10,
    // The delta byte does not name the start of a value.
    BadEntry = 11,
    // The asked offset is not in the region.
    Outside = 12,
    // An item number at or past the count, or a key that is not there.
    NoItem = 13,
    // The query does not fit the value's kind.
    WrongKind = 14,
    // Writer: the output has no room.
    NoRoom = 15,
    // Writer: items are still pending (document 01: "owed").
    Owed = 16,
    // Writer: already closed.
    Closed = 17,
    // Writer: a state that does not fit the output or the table.
    BadState = 18,
    // The length of a text or byte string exceeds the bytes left.
    LongBody = 19,
    // A count of items or arguments exceeds the bytes left, or a count of pairs exceeds half of them.
    LongList = 20,
}

// What went wrong, and where: the offset that the papers call its place. The writer's errors have no place, and are
// given by their kind alone.
#[derive(Clone, Copy, Debug, PartialEq, Eq)]
pub struct Error {
    pub kind: ErrorKind,
    pub place: usize,
}

// The number of an error.
pub fn number(kind: ErrorKind) -> u32
    ensures { result ≡ number_of kind }
{
    kind as u32
}

// The names in the papers' spelling, by number; no error has the number 0.
const NAMES: [&str; 21] = [
    "",
    "EMPTY",
    "TOO_LONG",
    "TRUNC",
    "RESERVED",
    "OVERLONG",
    "RANGE",
    "NESTED",
    "BAD_TEXT",
    "BAD_TARGET",
    "FULL",
    "BAD_ENTRY",
    "OUTSIDE",
    "NO_ITEM",
    "WRONG_KIND",
    "NO_ROOM",
    "OWED",
    "CLOSED",
    "BAD_STATE",
    "LONG_BODY",
    "LONG_LIST",
];

// The name of the error that has this number; an empty one if none has.
pub fn name_of(number: u32) -> &'static str
    ensures { result.now ≡ get_or names number [] }
{
    NAMES.get(number as usize).copied().unwrap_or("")
}

// The name of an error, such as `BAD_TARGET`.
#[tactic(auto, unfolding(crate::specs::Error::name_of))]
pub fn name(kind: ErrorKind) -> &'static str
    ensures { result.now ≡ name_of kind }
{
    name_of(number(kind))
}

// The name.
impl fmt::Display for ErrorKind {
    ghost output = { λ k. Some (name_of k) };

    fn fmt<W: fmt::Write>(&self, f: &mut fmt::Formatter<W>) -> fmt::Result {
        f.write_str(name(*self))
    }
}

// The name and the place, such as `BAD_TARGET 7`.
impl fmt::Display for Error {
    ghost output = { λ e. Some (shown e) };

    fn fmt<W: fmt::Write>(&self, f: &mut fmt::Formatter<W>) -> fmt::Result {
        let Error { kind, place } = *self;
        write!(f, "{kind} {place}")
    }
}
