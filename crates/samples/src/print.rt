// Printing to standard output.
use checker::Summary;
use error::{Error, ErrorKind};
use reader::{Followed, Place, Value};
use scan::Head;
use std::io;

// The numbers of a table, after a space each.
pub(crate) fn print_table(rt: &impl Print, t: &[u32]) -> io::Result<()> {
    for n in t {
        print!(rt; " {n}")?;
    }
    Ok(())
}

// Bytes in hex, after a space; nothing if there are none.
pub(crate) fn print_bytes(rt: &impl Print, part: &[u8]) -> io::Result<()> {
    if !part.is_empty() {
        print!(rt; " ")?;
    }
    for b in part {
        print!(rt; "{b:02x}")?;
    }
    Ok(())
}

// ---- values and tokens

pub(crate) fn print_head(rt: &impl Print, at: usize, h: Head) -> io::Result<()> {
    let Head {
        kind,
        n,
        items,
        first,
        end,
    } = h;
    print!(rt; " {at} {kind} {n} {items} {first} {end};")
}

fn print_value(rt: &impl Print, v: Value) -> io::Result<()> {
    match v {
        Value::False => print!(rt; " false"),
        Value::True => print!(rt; " true"),
        Value::Null => print!(rt; " null"),
        Value::Integer(z) => print!(rt; " integer {z}"),
        Value::Float32(bits) => print!(rt; " float32 {bits}"),
        Value::Float64(bits) => print!(rt; " float64 {bits}"),
        Value::Text { first, len } => print!(rt; " text {first} {len}"),
        Value::Bytes { first, len } => print!(rt; " bytes {first} {len}"),
        Value::Array { items, first } => print!(rt; " array {items} {first}"),
        Value::Map {
            pairs,
            items,
            first,
        } => print!(rt; " map {pairs} {items} {first}"),
        Value::Tag { tag, item } => print!(rt; " tag {tag} {item}"),
        Value::Variant { index } => print!(rt; " variant {index}"),
        Value::Variant1 { index, item } => print!(rt; " variant1 {index} {item}"),
        Value::VariantN {
            index,
            items,
            first,
        } => print!(rt; " variantn {index} {items} {first}"),
        Value::Reference { target } => print!(rt; " reference {target}"),
        Value::Pointer { target } => print!(rt; " pointer {target}"),
    }
}

// ---- answers

pub(crate) fn print_read(rt: &impl Print, answer: Result<Value, Error>) -> io::Result<()> {
    match answer {
        Ok(v) => print_value(rt, v),
        Err(e) => print!(rt; " {e}"),
    }
}

// The answer of `skip`, `item` and `lookup`.
pub(crate) fn print_offset(rt: &impl Print, answer: Result<usize, Error>) -> io::Result<()> {
    match answer {
        Ok(at) => print!(rt; " {at}"),
        Err(e) => print!(rt; " {e}"),
    }
}

pub(crate) fn print_follow(rt: &impl Print, answer: Result<Followed, Error>) -> io::Result<()> {
    match answer {
        Ok(Followed { at, hops }) => print!(rt; " {at} {hops}"),
        Err(e) => print!(rt; " {e}"),
    }
}

pub(crate) fn print_body_place(rt: &impl Print, answer: Result<Place, Error>) -> io::Result<()> {
    match answer {
        Ok(Place { first, len }) => print!(rt; " {first} {len}"),
        Err(e) => print!(rt; " {e}"),
    }
}

// The answer of `check` and `depths`.
pub(crate) fn print_check(rt: &impl Print, answer: Result<Summary, Error>) -> io::Result<()> {
    match answer {
        Ok(Summary { count, entry }) => print!(rt; " ok {count} {entry}"),
        Err(e) => print!(rt; " {e}"),
    }
}

pub(crate) fn print_write(rt: &impl Print, answer: Result<(), ErrorKind>) -> io::Result<()> {
    match answer {
        Ok(()) => print!(rt; " ok"),
        Err(e) => print!(rt; " {e}"),
    }
}
