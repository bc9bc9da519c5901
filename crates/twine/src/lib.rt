// The library for C; bindings/c/twine.h is its header. A slice is a pointer and a length in C, an array is a pointer. A
// call returns an error's number, 0 for none; what else it reports is in an array of the caller. A mode is a number: 1 is
// tolerant, any other strict. A comment on a function names the Rattle function that it calls.
#![tactic(auto)]

ghost use Rattle.std.specs.Prelude.{◌≡◌, length};
ghost use Rattle.reader_items.specs.Items.{skip_of, item_of};
ghost use Rattle.reader_follow.specs.Follow.{follow_of};
ghost use Rattle.reader_body.specs.Body.{body_place_of};
ghost use Rattle.reader_lookup.specs.Lookup.{lookup_of};
ghost use Rattle.writer.specs.Call.{Call};
ghost use Rattle.writer.specs.Step.{fresh};
ghost use Rattle.writer.specs.declared.Scalar as Scalar;
ghost use Rattle.abi_error.specs.Reply.{name_c, reply};
ghost use Rattle.abi_answer.specs.Answers.{mode_of, offset_c, pair_c};
ghost use Rattle.twine.specs.Tables.{check_reply, check_c, depths_reply, depths_c};
ghost use Rattle.abi_answer.specs.Read.{read_c};
ghost use Rattle.abi_prune.specs.Prune.{prune_reply, prune_c};
ghost use Rattle.abi_writer.specs.Calls.{words_of, truth, called, step_c};

use writer::Scalar;

// ---- version

// The version of this interface, also in the name: what was compiled against another version refers to another name, and does not link.
#[unsafe(no_mangle)]
pub extern "C" fn twine_abi_2() -> u32
    ensures { result ≡ 2 }
{
    abi_error::abi()
}

// ---- names

// `error::name_of`: the name, with zeros after it; zeros alone if no error has this number.
#[unsafe(no_mangle)]
pub extern "C" fn twine_spell_error(number: u32, name: &mut [u8; 11]) -> u32
    ensures { reply result name.new ≡ reply 0 (name_c number) }
{
    abi_error::spell_error(number, name)
}

// ---- check and depths

// `checker::check`: count and entry.
#[unsafe(no_mangle)]
pub extern "C" fn twine_check(file: &[u8], mode: u32, starts: &mut [u32], out: &mut [u64; 2]) -> u32
    ensures { check_reply (reply result out.new) starts.new ≡ check_c (mode_of mode) file.now (length starts.old) }
{
    abi_answer::answer_entry(checker::check(file, starts, abi_answer::mode_of(mode)), out)
}

// `depths::depths`: count and entry.
#[unsafe(no_mangle)]
pub extern "C" fn twine_depths(
    file: &[u8],
    mode: u32,
    starts: &mut [u32],
    depths: &mut [u32],
    out: &mut [u64; 2],
) -> u32
    ensures { depths_reply (reply result out.new) starts.new depths.new
        ≡ depths_c (mode_of mode) file.now (length starts.old) (length depths.old) }
{
    abi_answer::answer_entry(
        depths::depths(file, starts, depths, abi_answer::mode_of(mode)),
        out,
    )
}

// ---- prune

// `prune::prune`: length, count and entry of the new file.
#[unsafe(no_mangle)]
pub extern "C" fn twine_prune(
    file: &[u8],
    out: &mut [u8],
    old: &mut [u32],
    new: &mut [u32],
    told: &mut [u64; 3],
) -> u32
    ensures { prune_reply (reply result told.new) out.new old.new new.new
        ≡ prune_c file.now out.old (length old.old) (length new.old) }
{
    abi_prune::answer_prune(prune::prune(file, out, old, new), told)
}

// ---- queries

// `reader::peek`: kind, number, the offset just after the numbers, and count; an error's place and zeros.
#[unsafe(no_mangle)]
pub extern "C" fn twine_read(file: &[u8], mode: u32, at: usize, out: &mut [u64; 4]) -> u32
    ensures { reply result out.new ≡ read_c (mode_of mode) file.now at }
{
    abi_answer::read(file, at, out, abi_answer::mode_of(mode))
}

// `reader::skip`: the offset just after the value, and 0.
#[unsafe(no_mangle)]
pub extern "C" fn twine_skip(file: &[u8], mode: u32, at: usize, out: &mut [u64; 2]) -> u32
    ensures { reply result out.new ≡ offset_c (skip_of (mode_of mode) file.now at) }
{
    abi_answer::answer_offset(reader::skip(file, at, abi_answer::mode_of(mode)), out)
}

// `reader::item`: the item's offset, and 0.
#[unsafe(no_mangle)]
pub extern "C" fn twine_item(
    file: &[u8],
    mode: u32,
    at: usize,
    index: usize,
    out: &mut [u64; 2],
) -> u32
    ensures { reply result out.new ≡ offset_c (item_of (mode_of mode) file.now at index) }
{
    abi_answer::answer_offset(
        reader::item(file, at, index, abi_answer::mode_of(mode)),
        out,
    )
}

// `reader::follow`: offset and hops.
#[unsafe(no_mangle)]
pub extern "C" fn twine_follow(file: &[u8], mode: u32, at: usize, out: &mut [u64; 2]) -> u32
    ensures { reply result out.new ≡ pair_c (follow_of (mode_of mode) file.now at) }
{
    abi_answer::answer_follow(reader::follow(file, at, abi_answer::mode_of(mode)), out)
}

// `reader::lookup`: the offset of the value, and 0.
#[unsafe(no_mangle)]
pub extern "C" fn twine_lookup(
    file: &[u8],
    mode: u32,
    at: usize,
    key: &[u8],
    out: &mut [u64; 2],
) -> u32
    ensures { reply result out.new ≡ offset_c (lookup_of (mode_of mode) file.now at key.now) }
{
    abi_answer::answer_offset(
        reader::lookup(file, at, key, abi_answer::mode_of(mode)),
        out,
    )
}

// `reader::body_place`: first offset and length.
#[unsafe(no_mangle)]
pub extern "C" fn twine_body(file: &[u8], mode: u32, at: usize, out: &mut [u64; 2]) -> u32
    ensures { reply result out.new ≡ pair_c (body_place_of (mode_of mode) file.now at) }
{
    abi_answer::answer_body(reader::body_place(file, at, abi_answer::mode_of(mode)), out)
}

// ---- the writer's calls: those of `writer::Writer`, on the state that the words stand for
//
// Three lines each: a function that takes the call as a closure would have to promise, by values that it does not name, what the closure
// leaves in the output and the table.

#[unsafe(no_mangle)]
pub extern "C" fn twine_writer_new(state: &mut [u64; 5]) -> u32
    ensures { reply result state.new ≡ reply 0 (words_of fresh) }
{
    abi_writer::begin(state)
}

#[unsafe(no_mangle)]
pub extern "C" fn twine_write_bool(
    state: &mut [u64; 5],
    value: bool,
    out: &mut [u8],
    starts: &mut [u32],
) -> u32
    ensures { called result state.new out.new starts.new
        ≡ step_c (Call.scalar (truth value)) state.old out.old starts.old }
{
    let mut writer = abi_writer::writer_of(state);
    let answer = writer.scalar(abi_writer::truth(value), out, starts);
    abi_writer::settle(answer, writer, state)
}

#[unsafe(no_mangle)]
pub extern "C" fn twine_write_null(state: &mut [u64; 5], out: &mut [u8], starts: &mut [u32]) -> u32
    ensures { called result state.new out.new starts.new
        ≡ step_c (Call.scalar Scalar.Null) state.old out.old starts.old }
{
    let mut writer = abi_writer::writer_of(state);
    let answer = writer.scalar(Scalar::Null, out, starts);
    abi_writer::settle(answer, writer, state)
}

#[unsafe(no_mangle)]
pub extern "C" fn twine_write_integer(
    state: &mut [u64; 5],
    value: i64,
    out: &mut [u8],
    starts: &mut [u32],
) -> u32
    ensures { called result state.new out.new starts.new
        ≡ step_c (Call.integer value) state.old out.old starts.old }
{
    let mut writer = abi_writer::writer_of(state);
    let answer = writer.integer(value, out, starts);
    abi_writer::settle(answer, writer, state)
}

#[unsafe(no_mangle)]
pub extern "C" fn twine_write_float32(
    state: &mut [u64; 5],
    bits: u32,
    out: &mut [u8],
    starts: &mut [u32],
) -> u32
    ensures { called result state.new out.new starts.new
        ≡ step_c (Call.float32 bits) state.old out.old starts.old }
{
    let mut writer = abi_writer::writer_of(state);
    let answer = writer.float32(bits, out, starts);
    abi_writer::settle(answer, writer, state)
}

#[unsafe(no_mangle)]
pub extern "C" fn twine_write_float64(
    state: &mut [u64; 5],
    bits: u64,
    out: &mut [u8],
    starts: &mut [u32],
) -> u32
    ensures { called result state.new out.new starts.new
        ≡ step_c (Call.float64 bits) state.old out.old starts.old }
{
    let mut writer = abi_writer::writer_of(state);
    let answer = writer.float64(bits, out, starts);
    abi_writer::settle(answer, writer, state)
}

#[unsafe(no_mangle)]
pub extern "C" fn twine_write_text(
    state: &mut [u64; 5],
    text: &[u8],
    out: &mut [u8],
    starts: &mut [u32],
) -> u32
    ensures { called result state.new out.new starts.new
        ≡ step_c (Call.text text.now) state.old out.old starts.old }
{
    let mut writer = abi_writer::writer_of(state);
    let answer = writer.text(text, out, starts);
    abi_writer::settle(answer, writer, state)
}

#[unsafe(no_mangle)]
pub extern "C" fn twine_write_bytes(
    state: &mut [u64; 5],
    bytes: &[u8],
    out: &mut [u8],
    starts: &mut [u32],
) -> u32
    ensures { called result state.new out.new starts.new
        ≡ step_c (Call.bytes bytes.now) state.old out.old starts.old }
{
    let mut writer = abi_writer::writer_of(state);
    let answer = writer.bytes(bytes, out, starts);
    abi_writer::settle(answer, writer, state)
}

#[unsafe(no_mangle)]
pub extern "C" fn twine_write_variant(
    state: &mut [u64; 5],
    index: u32,
    out: &mut [u8],
    starts: &mut [u32],
) -> u32
    ensures { called result state.new out.new starts.new
        ≡ step_c (Call.variant index) state.old out.old starts.old }
{
    let mut writer = abi_writer::writer_of(state);
    let answer = writer.variant(index, out, starts);
    abi_writer::settle(answer, writer, state)
}

#[unsafe(no_mangle)]
pub extern "C" fn twine_write_reference(
    state: &mut [u64; 5],
    at: usize,
    out: &mut [u8],
    starts: &mut [u32],
) -> u32
    ensures { called result state.new out.new starts.new
        ≡ step_c (Call.reference at) state.old out.old starts.old }
{
    let mut writer = abi_writer::writer_of(state);
    let answer = writer.reference(at, out, starts);
    abi_writer::settle(answer, writer, state)
}

#[unsafe(no_mangle)]
pub extern "C" fn twine_write_pointer(
    state: &mut [u64; 5],
    at: usize,
    out: &mut [u8],
    starts: &mut [u32],
) -> u32
    ensures { called result state.new out.new starts.new
        ≡ step_c (Call.pointer at) state.old out.old starts.old }
{
    let mut writer = abi_writer::writer_of(state);
    let answer = writer.pointer(at, out, starts);
    abi_writer::settle(answer, writer, state)
}

#[unsafe(no_mangle)]
pub extern "C" fn twine_open_array(
    state: &mut [u64; 5],
    items: u64,
    out: &mut [u8],
    starts: &mut [u32],
) -> u32
    ensures { called result state.new out.new starts.new
        ≡ step_c (Call.open_array items) state.old out.old starts.old }
{
    let mut writer = abi_writer::writer_of(state);
    let answer = writer.open_array(items, out, starts);
    abi_writer::settle(answer, writer, state)
}

#[unsafe(no_mangle)]
pub extern "C" fn twine_open_map(
    state: &mut [u64; 5],
    pairs: u64,
    out: &mut [u8],
    starts: &mut [u32],
) -> u32
    ensures { called result state.new out.new starts.new
        ≡ step_c (Call.open_map pairs) state.old out.old starts.old }
{
    let mut writer = abi_writer::writer_of(state);
    let answer = writer.open_map(pairs, out, starts);
    abi_writer::settle(answer, writer, state)
}

#[unsafe(no_mangle)]
pub extern "C" fn twine_open_tag(
    state: &mut [u64; 5],
    tag: u64,
    out: &mut [u8],
    starts: &mut [u32],
) -> u32
    ensures { called result state.new out.new starts.new
        ≡ step_c (Call.open_tag tag) state.old out.old starts.old }
{
    let mut writer = abi_writer::writer_of(state);
    let answer = writer.open_tag(tag, out, starts);
    abi_writer::settle(answer, writer, state)
}

#[unsafe(no_mangle)]
pub extern "C" fn twine_open_variant1(
    state: &mut [u64; 5],
    index: u32,
    out: &mut [u8],
    starts: &mut [u32],
) -> u32
    ensures { called result state.new out.new starts.new
        ≡ step_c (Call.open_variant1 index) state.old out.old starts.old }
{
    let mut writer = abi_writer::writer_of(state);
    let answer = writer.open_variant1(index, out, starts);
    abi_writer::settle(answer, writer, state)
}

#[unsafe(no_mangle)]
pub extern "C" fn twine_open_variantn(
    state: &mut [u64; 5],
    index: u32,
    items: u64,
    out: &mut [u8],
    starts: &mut [u32],
) -> u32
    ensures { called result state.new out.new starts.new
        ≡ step_c (Call.open_variant_n index items) state.old out.old starts.old }
{
    let mut writer = abi_writer::writer_of(state);
    let answer = writer.open_variant_n(index, items, out, starts);
    abi_writer::settle(answer, writer, state)
}

#[unsafe(no_mangle)]
pub extern "C" fn twine_close(
    state: &mut [u64; 5],
    at: usize,
    out: &mut [u8],
    starts: &mut [u32],
) -> u32
    ensures { called result state.new out.new starts.new
        ≡ step_c (Call.close at) state.old out.old starts.old }
{
    let mut writer = abi_writer::writer_of(state);
    let answer = writer.close(at, out, starts);
    abi_writer::settle(answer, writer, state)
}
