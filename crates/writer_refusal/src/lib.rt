// A writer's state, and why a call is refused (document 01, "Writer").
#![tactic(auto)]

ghost use Rattle.std.specs.Prelude.{◌≡◌, true, false, ◌+◌, ◌≤◌, ◌<◌, ltb, leb};
ghost use Rattle.prelude.specs.Answer.{error};
ghost use Rattle.error.specs.Error.{number_of};
ghost use Rattle.kind.specs.Kind.{pending, due};
ghost use Rattle.writer_refusal.specs.Refusal.{limit, room, bad_state, is_ok, refusal_of};

use error::ErrorKind;
use kind::Rule;

// A writer's state. That no value is open is not a None: C passes any four words and a flag, and each call is defined for all of them.
#[derive(Clone, Copy)]
pub struct State {
    // The bytes written.
    pub written: usize,
    // The starts listed: how many values are finished.
    pub count: usize,
    // The items that the open value still has to get; 0 if none is open.
    pub pending: u64,
    // Where the open value starts; without meaning if none is open.
    pub start: usize,
    pub closed: bool,
}

// What a call needs from the state, and what is wrong with its argument; each flag may be a reason to refuse it.
#[derive(Clone, Copy)]
pub struct CallFlags {
    // It may not come while items are pending: an opening, or a close.
    pub alone: bool,
    // Its argument should be text, and is not.
    pub nontext: bool,
    // Its target is not listed.
    pub unlisted: bool,
    // It writes a token, which needs a free word if it begins a value.
    pub adds: bool,
}

// ---- what a token needs

// n, or LIMIT if n is more.
fn limit(n: u64) -> u64
    ensures { result ≡ limit n }
{
    n.min(error::LIMIT as u64)
}

// How many bytes may be written into an output of that many.
fn end(bytes: usize) -> usize
    ensures { result ≡ limit bytes }
{
    limit(bytes as u64) as usize
}

// How many items a token has, or LIMIT if they are more: map(2^63) has 2^64.
fn items(rule: Rule, n: u64, args: u64) -> u64
    requires { (rule.single ≤ 1) × (rule.each ≤ 4) }
    ensures { result ≡ limit (pending rule n args) }
{
    limit(rule.single + rule.each * limit(n) + limit(args))
}

// The items pending after a token; a token's own items count as at most LIMIT.
pub fn left(before: u64, rule: Rule, n: u64, args: u64) -> u64
    requires { (rule.single ≤ 1) × (rule.each ≤ 4) }
    ensures { result ≡ due before (limit (pending rule n args)) }
{
    if before == 0 {
        items(rule, n, args)
    } else {
        before - 1
    }
}

// The bytes left for tokens: one is held back for the delta.
fn room(state: State, bytes: usize) -> usize
    ensures { result ≡ room state bytes }
{
    end(bytes).saturating_sub(1).saturating_sub(state.written)
}

// Whether a token of `size` bytes, with a byte for each item left after it, exceeds the room.
fn exceeds(room: usize, size: usize, left: u64) -> bool
    ensures { result ≡ ltb room (size + left) }
{
    room < size || ((room - size) as u64) < left
}

// Whether the output has no room for a token and the items left after it.
fn is_short(state: State, size: usize, left: u64, bytes: usize) -> bool
    ensures { result ≡ ltb (room state bytes) (size + left) }
{
    exceeds(room(state, bytes), size, left)
}

// ---- whether a call is refused

// Whether a state does not fit an output of that many bytes and a table of that many words.
fn is_bad_state(state: State, bytes: usize, words: usize) -> bool
    ensures { result ≡ bad_state state bytes words }
{
    // an open value without a free word, or that does not start below the bytes written
    let open_bad = (0 < state.pending) & ((words <= state.count) | (state.written <= state.start));
    (bytes < state.written) | ((error::LIMIT < state.written) | ((words < state.count) | open_bad))
}

// Whether a token of `size` bytes is accepted, with the items left after it. If there is room for it, the state is within the
// output; so that is not tested.
pub fn may_write(
    state: State,
    request: CallFlags,
    size: usize,
    left: u64,
    bytes: usize,
    words: usize,
) -> bool
    requires { (request.adds ≡ true) × (0 < size) }
    ensures { result ≡ is_ok (refusal_of request (ltb (room state bytes) (size + left)) state bytes words) }
{
    let short = is_short(state, size, left, bytes);
    // OWED; or BAD_STATE: the open value does not start below the bytes written
    let late = (0 < state.pending) & (request.alone | (state.written <= state.start));
    let wrong = request.nontext | request.unlisted;
    (state.count < words) & !state.closed & !late & !wrong & !short
}

// Whether a close by the delta byte alone is accepted.
pub fn may_close(state: State, request: CallFlags, bytes: usize, words: usize) -> bool
    requires { request.adds ≡ false }
    ensures { result ≡ is_ok (refusal_of request (leb (limit bytes) state.written) state bytes words) }
{
    let bad = is_bad_state(state, bytes, words);
    let late = request.alone & (0 < state.pending);
    let wrong = request.nontext | request.unlisted;
    let short = end(bytes) <= state.written;
    !bad & !state.closed & !late & !wrong & !short
}

// The first reason to refuse a call that `may_write` or `may_close` does not accept: NO_ROOM if there is no other.
pub fn refusal(state: State, request: CallFlags, bytes: usize, words: usize) -> ErrorKind
    ensures { error (number_of result) ≡ refusal_of request true state bytes words }
{
    if is_bad_state(state, bytes, words) {
        return ErrorKind::BadState;
    }
    if state.closed {
        return ErrorKind::Closed;
    }
    if request.alone & (0 < state.pending) {
        return ErrorKind::Owed;
    }
    if request.nontext {
        return ErrorKind::BadText;
    }
    if request.unlisted {
        return ErrorKind::BadTarget;
    }
    if request.adds & (state.pending == 0) & (words <= state.count) {
        return ErrorKind::Full;
    }
    ErrorKind::NoRoom
}
