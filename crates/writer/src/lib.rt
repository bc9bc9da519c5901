// The writer's calls (document 01, "Writer").
#![tactic(auto)]

ghost use Rattle.std.specs.Prelude.{◌≡◌, [], ◌+◌, ◌-◌, ◌<◌, ◌^◌, length};
ghost use Rattle.prelude.specs.Answer.{ok};
ghost use Rattle.token.specs.Token.{token};
ghost use Rattle.writer.specs.Call.{Call};
ghost use Rattle.writer.specs.Step.{integer_of, start_of, result as outcome, put_token, put_moved, fresh, step};
ghost use Rattle.writer.specs.Answers.{wrote};
ghost use Rattle.writer.specs.Internal.{ListedTest, ArgumentTest, token_flags_by, Fits, FitOf, Advanced, WroteDelta, close_near, close_far};

use error::ErrorKind;
use kind::Rule;
use little_endian::Word;
use writer_refusal::{CallFlags, State};

// A writer of a file. Output and table are lent to each call; one that is refused leaves writer, output and table as they were.
#[derive(Clone, Copy)]
pub struct Writer {
    pub state: State,
}

// A scalar, with its number.
#[derive(Clone, Copy)]
pub enum Scalar {
    False = 0,
    True = 1,
    Null = 2,
}

// What `fit` finds about a token that is accepted, before it is written.
#[derive(Clone, Copy)]
struct Fit {
    // Its second number, if its kind has one.
    second: Option<u64>,
    // Its bytes.
    size: usize,
    // The items pending after it; its own count as LIMIT if they are more.
    left: u64,
}

// ---- what a token holds

// The kind of an integer: 1, or 2 if it is negative.
fn sign(z: i64) -> u8
    ensures { (result ≡ (integer_of z).kind) × (result < 4) }
{
    if z < 0 {
        kind::KIND_NEGATIVE
    } else {
        kind::KIND_INTEGER
    }
}

// The number of an integer: z, or -z - 1 if it is negative.
fn magnitude(z: i64) -> u64
    ensures { result ≡ (integer_of z).n }
{
    if z < 0 { (-1 - z) as u64 } else { z as u64 }
}

// The flags of a token. `good`: its text or target is right; `row`: the rule of its kind.
fn token_flags(row: Rule, kind: u8, good: bool) -> CallFlags
    ensures { result ≡ token_flags_by row kind good }
{
    let immediate = kind::is_immediate(row);
    CallFlags {
        alone: !immediate,
        nontext: (kind == kind::KIND_TEXT) & !good,
        unlisted: (kind::KIND_REFERENCE <= kind) & !good,
        adds: true,
    }
}

impl Writer {
    // ---- a token

    // Whether a token that names the offset `target` is accepted, and what it takes; or why it is refused. `good`: its text or target
    // is right.
    #[inline(always)]
    fn fit(
        &self,
        good: bool,
        kind: u8,
        n: u64,
        args: u64,
        body: &[u8],
        target: usize,
        out: &[u8],
        starts: &[u32],
    ) -> Result<Fit, ErrorKind>
        requires { (kind < 16) × ArgumentTest good kind body.now target self.now.state starts.now }
        ensures { FitOf (token kind n args body.now) target self.now.state out.now starts.now result }
    {
        let row = kind::rule_of(kind);
        let request = token_flags(row, kind, good);
        let size = emit::size_by(row, n, args, body);
        let left = writer_refusal::left(self.state.pending, row, n, args);
        let bytes = out.len();
        let words = starts.len();
        if writer_refusal::may_write(self.state, request, size, left, bytes, words) {
            return Ok(Fit {
                second: row.args.then_some(args),
                size,
                left,
            });
        }
        Err(writer_refusal::refusal(self.state, request, bytes, words))
    }

    // Goes on after a token is written; lists the start of the value if the token finishes it.
    #[inline(always)]
    fn advance(&mut self, fit: Fit, starts: &mut [u32])
        requires { (start_of self.old.state < 2 ^ 32) × (self.old.state.count < length starts.old) × (self.old.state.written + fit.size < 2 ^ 64) }
        ensures { Advanced fit self.old.state starts.old self.new.state starts.new }
    {
        let start = if self.state.pending == 0 {
            self.state.written
        } else {
            self.state.start
        };
        self.state = State {
            written: self.state.written + fit.size,
            count: writer_listing::list_start(fit.left, start, self.state.count, starts),
            pending: fit.left,
            start,
            closed: false,
        };
    }

    // Writes a token that is accepted.
    #[inline(always)]
    fn write(
        &mut self,
        fit: Fit,
        kind: u8,
        n: u64,
        args: u64,
        body: &[u8],
        target: usize,
        out: &mut [u8],
        starts: &mut [u32],
    )
        requires { Fits (token kind n args body.now) target self.old.state out.old starts.old fit }
        ensures { outcome (ok tt) self.new.state out.new starts.new
            ≡ put_token (token kind n args body.now) target self.old.state out.old starts.old }
    {
        let written = self.state.written;
        emit::put_within(&mut out[written..], kind, n, fit.second, body);
        self.advance(fit, starts);
    }

    // Writes or refuses a token that names the offset `target`. `good`: its text or target is right. It is put into each call, in which its
    // kind is a constant (docs/PERFORMANCE.md).
    #[inline(always)]
    fn put(
        &mut self,
        good: bool,
        kind: u8,
        n: u64,
        args: u64,
        body: &[u8],
        target: usize,
        out: &mut [u8],
        starts: &mut [u32],
    ) -> Result<(), ErrorKind>
        requires { (kind < 16) × ArgumentTest good kind body.now target self.old.state starts.old }
        ensures { wrote result self.new.state out.new starts.new
            ≡ put_token (token kind n args body.now) target self.old.state out.old starts.old }
    {
        let fit = self.fit(good, kind, n, args, body, target, out, starts)?;
        self.write(fit, kind, n, args, body, target, out, starts);
        Ok(())
    }

    // ---- a token of another file

    // Whether the text or target of a token is right; `number`: the word of the table in which a target is looked for first.
    fn is_good(&self, kind: u8, body: &[u8], target: usize, number: usize, starts: &[u32]) -> bool
        ensures { ArgumentTest result kind body.now target self.now.state starts.now }
    {
        if kind::KIND_REFERENCE <= kind {
            return writer_listing::is_listed_near(
                self.state.written,
                self.state.count,
                starts,
                target,
                number,
            );
        }
        if kind == kind::KIND_TEXT {
            return utf8::is_text(body);
        }
        true
    }

    // Writes or refuses a token that is given by its parts. A reference or pointer names the offset in word number `number` of the
    // table, and n is not looked at.
    pub fn put_moved(
        &mut self,
        kind: u8,
        n: u64,
        args: u64,
        body: &[u8],
        number: usize,
        out: &mut [u8],
        starts: &mut [u32],
    ) -> Result<(), ErrorKind>
        requires { kind < 16 }
        ensures { wrote result self.new.state out.new starts.new
            ≡ put_moved (token kind n args body.now) number self.old.state out.old starts.old }
    {
        let target = writer_target::named(kind, starts, number);
        let moved = writer_target::moved_number(kind, n, self.state.written, target);
        let good = self.is_good(kind, body, target, number, starts);
        self.put(good, kind, moved, args, body, target, out, starts)
    }

    // ---- the close

    // Writes the delta byte, which closes.
    fn write_delta(&mut self, delta: u8, out: &mut [u8])
        requires { self.old.state.written < length out.old }
        ensures { WroteDelta delta self.old.state out.old self.new.state out.new }
    {
        out[self.state.written] = delta;
        self.state.written += 1;
        self.state.closed = true;
    }

    // Closes by the delta byte alone. `good`: `at` is listed.
    fn close_near(
        &mut self,
        good: bool,
        at: usize,
        delta: u8,
        out: &mut [u8],
        starts: &[u32],
    ) -> Result<(), ErrorKind>
        requires { ListedTest good at self.old.state starts.now }
        ensures { wrote result self.new.state out.new starts.now ≡ close_near at delta self.old.state out.old starts.now }
    {
        let request = CallFlags {
            alone: true,
            nontext: false,
            unlisted: !good,
            adds: false,
        };
        if writer_refusal::may_close(self.state, request, out.len(), starts.len()) {
            self.write_delta(delta, out);
            return Ok(());
        }
        Err(writer_refusal::refusal(self.state, request, out.len(), starts.len()))
    }

    // Closes by a pointer of the distance `back` and its delta byte. `good`: `at` is listed.
    fn close_far(
        &mut self,
        good: bool,
        at: usize,
        back: u64,
        out: &mut [u8],
        starts: &mut [u32],
    ) -> Result<(), ErrorKind>
        requires { ListedTest good at self.old.state starts.old }
        ensures { wrote result self.new.state out.new starts.new ≡ close_far at back self.old.state out.old starts.old }
    {
        if 0 < self.state.pending {
            let request = CallFlags {
                alone: true,
                nontext: false,
                unlisted: !good,
                adds: true,
            };
            return Err(writer_refusal::refusal(self.state, request, out.len(), starts.len()));
        }
        let kind = kind::KIND_POINTER;
        let fit = self.fit(good, kind, back, 0, b"", at, out, starts)?;
        self.write(fit, kind, back, 0, b"", at, out, starts);
        self.write_delta((fit.size - 1) as u8, out);
        Ok(())
    }
}

// ---- the calls

impl Writer {
    // A writer that has written nothing.
    pub fn new() -> Self
        ensures { result.state ≡ fresh }
    {
        Writer {
            state: State {
                written: 0,
                count: 0,
                pending: 0,
                start: 0,
                closed: false,
            },
        }
    }

    pub fn scalar(
        &mut self,
        value: Scalar,
        out: &mut [u8],
        starts: &mut [u32],
    ) -> Result<(), ErrorKind>
        ensures { wrote result self.new.state out.new starts.new ≡ step (Call.scalar value) self.old.state out.old starts.old }
    {
        let n = value as u64;
        self.put(true, kind::KIND_SCALAR, n, 0, b"", 0, out, starts)
    }

    pub fn integer(
        &mut self,
        value: i64,
        out: &mut [u8],
        starts: &mut [u32],
    ) -> Result<(), ErrorKind>
        ensures { wrote result self.new.state out.new starts.new ≡ step (Call.integer value) self.old.state out.old starts.old }
    {
        self.put(true, sign(value), magnitude(value), 0, b"", 0, out, starts)
    }

    // Takes the bits, which are never computed with. C has a function for each width, `twine_write_float32` and `twine_write_float64`.
    pub fn float32(
        &mut self,
        bits: u32,
        out: &mut [u8],
        starts: &mut [u32],
    ) -> Result<(), ErrorKind>
        ensures { wrote result self.new.state out.new starts.new ≡ step (Call.float32 bits) self.old.state out.old starts.old }
    {
        let body = bits.bytes();
        self.put(true, kind::KIND_FLOAT, 0, 0, &body, 0, out, starts)
    }

    pub fn float64(
        &mut self,
        bits: u64,
        out: &mut [u8],
        starts: &mut [u32],
    ) -> Result<(), ErrorKind>
        ensures { wrote result self.new.state out.new starts.new ≡ step (Call.float64 bits) self.old.state out.old starts.old }
    {
        let body = bits.bytes();
        self.put(true, kind::KIND_FLOAT, 1, 0, &body, 0, out, starts)
    }

    pub fn text(&mut self, body: &[u8], out: &mut [u8], starts: &mut [u32]) -> Result<(), ErrorKind>
        ensures { wrote result self.new.state out.new starts.new
            ≡ step (Call.text body.now) self.old.state out.old starts.old }
    {
        let good = utf8::is_text(body);
        let n = body.len() as u64;
        self.put(good, kind::KIND_TEXT, n, 0, body, 0, out, starts)
    }

    pub fn bytes(
        &mut self,
        body: &[u8],
        out: &mut [u8],
        starts: &mut [u32],
    ) -> Result<(), ErrorKind>
        ensures { wrote result self.new.state out.new starts.new
            ≡ step (Call.bytes body.now) self.old.state out.old starts.old }
    {
        let n = body.len() as u64;
        self.put(true, kind::KIND_BYTES, n, 0, body, 0, out, starts)
    }

    // A variant with no argument.
    pub fn variant(
        &mut self,
        index: u32,
        out: &mut [u8],
        starts: &mut [u32],
    ) -> Result<(), ErrorKind>
        ensures { wrote result self.new.state out.new starts.new ≡ step (Call.variant index) self.old.state out.old starts.old }
    {
        let n = u64::from(index);
        self.put(true, kind::KIND_VARIANT, n, 0, b"", 0, out, starts)
    }

    // A reference to the value that starts at `at`.
    pub fn reference(
        &mut self,
        at: usize,
        out: &mut [u8],
        starts: &mut [u32],
    ) -> Result<(), ErrorKind>
        ensures { wrote result self.new.state out.new starts.new ≡ step (Call.reference at) self.old.state out.old starts.old }
    {
        let n = writer_target::distance(self.state.written, at);
        let good = writer_listing::is_listed(self.state.written, self.state.count, starts, at);
        self.put(good, kind::KIND_REFERENCE, n, 0, b"", at, out, starts)
    }

    // A pointer to the value that starts at `at`.
    pub fn pointer(
        &mut self,
        at: usize,
        out: &mut [u8],
        starts: &mut [u32],
    ) -> Result<(), ErrorKind>
        ensures { wrote result self.new.state out.new starts.new ≡ step (Call.pointer at) self.old.state out.old starts.old }
    {
        let n = writer_target::distance(self.state.written, at);
        let good = writer_listing::is_listed(self.state.written, self.state.count, starts, at);
        self.put(good, kind::KIND_POINTER, n, 0, b"", at, out, starts)
    }

    // An array of n items, which are the next immediates.
    pub fn open_array(
        &mut self,
        n: u64,
        out: &mut [u8],
        starts: &mut [u32],
    ) -> Result<(), ErrorKind>
        ensures { wrote result self.new.state out.new starts.new ≡ step (Call.open_array n) self.old.state out.old starts.old }
    {
        self.put(true, kind::KIND_ARRAY, n, 0, b"", 0, out, starts)
    }

    // A map of n pairs, whose keys and values, alternating, are the next immediates.
    pub fn open_map(&mut self, n: u64, out: &mut [u8], starts: &mut [u32]) -> Result<(), ErrorKind>
        ensures { wrote result self.new.state out.new starts.new ≡ step (Call.open_map n) self.old.state out.old starts.old }
    {
        self.put(true, kind::KIND_MAP, n, 0, b"", 0, out, starts)
    }

    // A tag of the next immediate.
    pub fn open_tag(
        &mut self,
        tag: u64,
        out: &mut [u8],
        starts: &mut [u32],
    ) -> Result<(), ErrorKind>
        ensures { wrote result self.new.state out.new starts.new ≡ step (Call.open_tag tag) self.old.state out.old starts.old }
    {
        self.put(true, kind::KIND_TAG, tag, 0, b"", 0, out, starts)
    }

    // A variant whose one argument is the next immediate.
    pub fn open_variant1(
        &mut self,
        index: u32,
        out: &mut [u8],
        starts: &mut [u32],
    ) -> Result<(), ErrorKind>
        ensures { wrote result self.new.state out.new starts.new
            ≡ step (Call.open_variant1 index) self.old.state out.old starts.old }
    {
        let n = u64::from(index);
        self.put(true, kind::KIND_VARIANT1, n, 0, b"", 0, out, starts)
    }

    // A variant whose n arguments are the next immediates.
    pub fn open_variant_n(
        &mut self,
        index: u32,
        n: u64,
        out: &mut [u8],
        starts: &mut [u32],
    ) -> Result<(), ErrorKind>
        ensures { wrote result self.new.state out.new starts.new
            ≡ step (Call.open_variant_n index n) self.old.state out.old starts.old }
    {
        let index = u64::from(index);
        self.put(true, kind::KIND_VARIANTN, index, n, b"", 0, out, starts)
    }

    // Closes at the value that starts at `at`: the file's entry is that value, or, if one delta byte does not reach back to it,
    // a pointer to it, which is added.
    pub fn close(&mut self, at: usize, out: &mut [u8], starts: &mut [u32]) -> Result<(), ErrorKind>
        ensures { wrote result self.new.state out.new starts.new ≡ step (Call.close at) self.old.state out.old starts.old }
    {
        let good = writer_listing::is_listed(self.state.written, self.state.count, starts, at);
        let back = writer_target::distance(self.state.written, at);
        if back <= 255 {
            return self.close_near(good, at, back as u8, out, starts);
        }
        self.close_far(good, at, back, out, starts)
    }
}
