// One token written: how many bytes it takes, and its bytes, put into a borrowed tail. The token is not checked: one that
// its kind does not allow is written as it is, and may not read back. `args` matters only for a kind with a second number.
#![tactic(auto)]

ghost use Rattle.std.specs.Prelude.{◌≡◌, [], ◌+◌, ◌-◌, ◌≤◌, ◌<◌, leb, length, is_some, unwrap_or, ◌↔◌, IsSome};
ghost use Rattle.prelude.specs.Bytes.{stored, Put, PutAt};
ghost use Rattle.kind.specs.Kind.{rule};
ghost use Rattle.token.specs.Token.{token, put_if, emit, emit_into};
ghost use Rattle.emit.specs.Internal.{bytes_of};

use kind::Rule;

// The size of a number, or 0 if there is none.
fn size_if(number: Option<u64>) -> usize
    ensures { (result ≡ length (bytes_of number)) × (result ≤ 10) }
{
    match number {
        Some(n) => leb128::size(n),
        None => 0,
    }
}

// How many bytes a token of a kind with this rule takes.
pub fn size_by(rule: Rule, n: u64, args: u64, body: &[u8]) -> usize
    ensures { result ≡ 1 + length (put_if (leb 15 n) (n - 15)) + length (put_if rule.args args) + length body.now }
{
    1 + size_if(n.checked_sub(kind::EXTENDED)) + size_if(rule.args.then_some(args)) + body.len()
}

// How many bytes a token takes; for a kind over 15, which `put` does not write, as many as for a reserved one.
pub fn size(kind: u8, n: u64, args: u64, body: &[u8]) -> usize
    ensures { result ≡ length (emit (token kind n args body.now)) }
{
    size_by(kind::rule_of(kind), n, args, body)
}

// Writes a number, if there is one, into out from `at` on, and returns the offset after it.
fn put_if(out: &mut [u8], at: usize, number: Option<u64>) -> usize
    requires { at + length (bytes_of number) ≤ length out.old }
    ensures { PutAt (bytes_of number) out.old at out.new result }
{
    match number {
        Some(n) => at + leb128::put_within(&mut out[at..], n),
        None => at,
    }
}

// Copies a body to the front of rest, which has room for it, and returns its length. By an index: std's `copy_from_slice` would have
// the library call libc's `memmove`, and it calls `memset` alone (README.md, "Limits").
pub fn copy(rest: &mut [u8], body: &[u8]) -> usize
    requires { length body.now ≤ length rest.old }
    ensures { Put body.now rest.old rest.new result }
{
    let mut i: usize = 0;
    while i < body.len() {
        rest[i] = body[i];
        i += 1;
    }
    i
}

fn put_body(out: &mut [u8], at: usize, body: &[u8]) -> usize
    requires { at + length body.now ≤ length out.old }
    ensures { PutAt body.now out.old at out.new result }
{
    at + copy(&mut out[at..], body)
}

// Writes the header and its numbers, for which there is room, and returns how many bytes that took. `second`: the second number, if
// the kind has one.
pub fn put_head(out: &mut [u8], kind: u8, n: u64, second: Option<u64>) -> usize
    requires { (kind < 16) × (is_some second ≡ (rule kind).args) × (length (emit (token kind n (unwrap_or second 0) [])) ≤ length out.old) }
    ensures { Put (emit (token kind n (unwrap_or second 0) [])) out.old out.new result }
{
    out[0] = kind * 16 + n.min(kind::EXTENDED) as u8;
    let number = put_if(out, 1, n.checked_sub(kind::EXTENDED));
    put_if(out, number, second)
}

// Writes a token, for which there is room: the header, its number, the second number, the body. Returns how many bytes that took.
pub fn put_within(out: &mut [u8], kind: u8, n: u64, second: Option<u64>, body: &[u8]) -> usize
    requires { (kind < 16) × (is_some second ≡ (rule kind).args) × (length (emit (token kind n (unwrap_or second 0) body.now)) ≤ length out.old) }
    ensures { Put (emit (token kind n (unwrap_or second 0) body.now)) out.old out.new result }
{
    let head = put_head(out, kind, n, second);
    put_body(out, head, body)
}

// Writes a token at the front of rest and returns how many bytes that took; if it does not fit, or its kind is over 15,
// writes nothing.
pub fn put(rest: &mut [u8], kind: u8, n: u64, args: u64, body: &[u8]) -> Option<usize>
    ensures fits { IsSome result ↔ ((kind < 16) × (length (emit (token kind n args body.now)) ≤ length rest.old)) }
    ensures stores { stored (unwrap_or result 0) rest.new ≡ emit_into (token kind n args body.now) rest.old }
{
    if 16 <= kind {
        return None;
    }
    if rest.len() < size(kind, n, args, body) {
        return None;
    }
    let rule = kind::rule_of(kind);
    Some(put_within(rest, kind, n, rule.args.then_some(args), body))
}
