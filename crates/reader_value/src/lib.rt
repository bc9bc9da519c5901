// What the value at an offset of any file is (document 01, "Questions at an offset").
#![tactic(auto)]

ghost use Rattle.std.specs.Prelude.{◌≡◌, ◌≤◌, length};
ghost use Rattle.reader_region.specs.Internal.{Peeked};
ghost use Rattle.reader_value.specs.Value.{scalar, float, value_on, read_of};
ghost use Rattle.reader_value.specs.Row.{read_row_of};
ghost use Rattle.reader_value.specs.Answers.{read_answer, row_answer};

use error::Error;
use leb128::Mode;
use little_endian::Word;
use scan::Head;

// One value. Items and text bytes are not looked at.
#[derive(Clone, Copy, Debug, PartialEq, Eq)]
pub enum Value {
    False,
    True,
    Null,
    Integer(i64),
    // Floats are bits, never computed with; the two widths are different values.
    Float32(u32),
    Float64(u64),
    // The first offset of the bytes, and how many.
    Text {
        first: usize,
        len: usize,
    },
    Bytes {
        first: usize,
        len: usize,
    },
    // How many items, and where the first would start, which may be the region's end; for a map also how many pairs, keys
    // and values alternating.
    Array {
        items: u64,
        first: usize,
    },
    Map {
        pairs: u64,
        items: u64,
        first: usize,
    },
    // The tag, and where its one item would start.
    Tag {
        tag: u64,
        item: usize,
    },
    // The index of a variant: without an item; with where its one item would start; and with many items, as for an array.
    Variant {
        index: u32,
    },
    Variant1 {
        index: u32,
        item: usize,
    },
    VariantN {
        index: u32,
        items: u64,
        first: usize,
    },
    // The offset of the target.
    Reference {
        target: usize,
    },
    Pointer {
        target: usize,
    },
}

fn scalar_of(n: u64) -> Value
    ensures { result ≡ scalar n }
{
    match n {
        0 => Value::False,
        1 => Value::True,
        _ => Value::Null,
    }
}

fn float_of(region: &[u8], h: Head) -> Value
    requires { h.first ≤ length region.now }
    ensures { result ≡ float region.now h }
{
    let body = &region[h.first..];
    if h.n == 0 {
        Value::Float32(u32::load(body))
    } else {
        Value::Float64(u64::load(body))
    }
}

// The value at `at` with head h: the kinds in their order; 9 and 13 are reserved.
#[tactic(auto, unfolding(crate::specs::Value::value_on, kind::specs::Kind::rule))]
fn value_on(region: &[u8], at: usize, h: Head) -> Value
    requires { Peeked region.now at h }
    ensures { result ≡ value_on region.now at h }
{
    let kind = h.kind;
    let n = h.n;
    let first = h.first;
    match kind {
        kind::KIND_SCALAR => scalar_of(n),
        kind::KIND_INTEGER => Value::Integer(n as i64),
        kind::KIND_NEGATIVE => Value::Integer(-1 - n as i64),
        kind::KIND_FLOAT => float_of(region, h),
        kind::KIND_TEXT => Value::Text {
            first,
            len: h.end - first,
        },
        kind::KIND_BYTES => Value::Bytes {
            first,
            len: h.end - first,
        },
        kind::KIND_ARRAY => Value::Array {
            items: h.items,
            first,
        },
        kind::KIND_MAP => Value::Map {
            pairs: n,
            items: h.items,
            first,
        },
        kind::KIND_TAG => Value::Tag {
            tag: n,
            item: first,
        },
        kind::KIND_VARIANT => Value::Variant { index: n as u32 },
        kind::KIND_VARIANT1 => Value::Variant1 {
            index: n as u32,
            item: first,
        },
        kind::KIND_VARIANTN => Value::VariantN {
            index: n as u32,
            items: h.items,
            first,
        },
        kind::KIND_REFERENCE => Value::Reference {
            target: at - n as usize - 1,
        },
        kind::KIND_POINTER => Value::Pointer {
            target: at - n as usize - 1,
        },
        _ => Value::Null,
    }
}

// The value at `at`. Neither items nor text bytes are looked at, and a target only has to be 0 or more.
pub fn read(file: &[u8], at: usize, mode: Mode) -> Result<Value, Error>
    ensures { (read_answer result ≡ read_of mode file.now at) × (row_answer result ≡ read_row_of mode file.now at) }
{
    let h = reader_region::peek(file, at, mode)?;
    Ok(value_on(reader_region::region(file), at, h))
}
