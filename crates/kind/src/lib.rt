// The kind table (document 01, "Row of a file"): one constant table of sixteen entries, by the high nibble of a header.
#![tactic(auto)]

ghost use Rattle.std.specs.Prelude.{◌≡◌};
ghost use Rattle.kind.specs.Kind.{rule, immediate};
ghost use Rattle.kind.specs.Internal.{unpack, bound};

// What a kind may hold.
#[derive(Clone, Copy)]
pub struct Rule {
    // How many low nibbles are in use, from 0: none for a reserved kind, 16 if low 15 means that a number follows.
    pub lows: u8,
    // n is at most this.
    pub most: u64,
    // The body has `fixed` bytes, and `scale` for each n.
    pub fixed: u64,
    pub scale: u64,
    // The items are `single`, which is 0 or 1, `each` for each n, and as many as a second number says if `args` is true.
    pub single: u64,
    pub each: u64,
    pub args: bool,
    // Whether a value of this kind may be an item.
    pub immediate: bool,
}

// The place values of a rule's fields in its packed form; `lows` is the lowest field.
const BOUND: u16 = 32;

const SCALE: u16 = 256;

// Four bytes for each n and four more, a float's body: no other has fixed bytes.
const FIXED: u16 = 4 * SCALE;

const SINGLE: u16 = 2048;

const EACH: u16 = 4096;

const ARGS: u16 = 16384;

const IMMEDIATE: u16 = 32768;

// The bounds that are not small numbers.
const BITS_32: u16 = 3 * BOUND;

const BITS_63: u16 = 4 * BOUND;

const BITS_64: u16 = 5 * BOUND;

const KINDS: [u16; 16] = [
    // false, true, null
    3 + 2 * BOUND + IMMEDIATE,
    // integers: n, and -n-1
    16 + BITS_63 + IMMEDIATE,
    16 + BITS_63 + IMMEDIATE,
    // floats of 4 and 8 bytes
    2 + BOUND + FIXED + IMMEDIATE,
    // text, byte string
    16 + BITS_64 + SCALE + IMMEDIATE,
    16 + BITS_64 + SCALE + IMMEDIATE,
    // array, map
    16 + BITS_64 + EACH,
    16 + BITS_64 + 2 * EACH,
    // tag
    16 + BITS_64 + SINGLE,
    // reserved
    0,
    // variants of none, of one, of many
    16 + BITS_32 + IMMEDIATE,
    16 + BITS_32 + SINGLE,
    16 + BITS_32 + ARGS,
    // reserved
    0,
    // reference, pointer
    16 + BITS_64 + IMMEDIATE,
    16 + BITS_64 + IMMEDIATE,
];

#[tactic(auto, unfolding(crate::specs::Internal::bound))]
fn bound(code: u16) -> u64
    ensures { result ≡ bound code }
{
    match code {
        5 => 0xffff_ffff_ffff_ffff,
        4 => 0x7fff_ffff_ffff_ffff,
        3 => 0xffff_ffff,
        small => u64::from(small),
    }
}

#[tactic(auto, unfolding(crate::specs::Internal::unpack))]
fn unpacked(c: u16) -> Rule
    ensures { result ≡ unpack c }
{
    Rule {
        lows: (c % 32) as u8,
        most: bound(c / BOUND % 8),
        fixed: u64::from(c / FIXED % 2 * 4),
        scale: u64::from(c / SCALE % 8),
        single: u64::from(c / SINGLE % 2),
        each: u64::from(c / EACH % 4),
        args: c / ARGS % 2 == 1,
        immediate: c / IMMEDIATE == 1,
    }
}

// The low nibble that means that a number follows the header (document 01: "extension").
pub const EXTENDED: u64 = 15;

// A kind is a number here and not an enum: document 01 and C name it by its number, the table is indexed by it, and definitions
// compare it with these, so an enum would be turned into its number at each place.

// False, true, null.
pub const KIND_SCALAR: u8 = 0;

// The integer n.
pub const KIND_INTEGER: u8 = 1;

// The integer -n-1.
pub const KIND_NEGATIVE: u8 = 2;

// A float of 4 or 8 bytes.
pub const KIND_FLOAT: u8 = 3;

// Text.
pub const KIND_TEXT: u8 = 4;

// Byte string.
pub const KIND_BYTES: u8 = 5;

// Array.
pub const KIND_ARRAY: u8 = 6;

// Map.
pub const KIND_MAP: u8 = 7;

// Tag.
pub const KIND_TAG: u8 = 8;

// Variant of none.
pub const KIND_VARIANT: u8 = 10;

// Variant of one.
pub const KIND_VARIANT1: u8 = 11;

// Variant of many.
pub const KIND_VARIANTN: u8 = 12;

// Reference.
pub const KIND_REFERENCE: u8 = 14;

// Pointer.
pub const KIND_POINTER: u8 = 15;

// The rule of a kind; for a number over 15, that of a reserved kind.
pub fn rule_of(kind: u8) -> Rule
    ensures { result ≡ rule kind }
{
    unpacked(KINDS.get(usize::from(kind)).copied().unwrap_or(0))
}

// Whether a value of this rule may be an item, as the table has it.
pub fn is_immediate(rule: Rule) -> bool
    ensures { result ≡ immediate rule }
{
    rule.immediate
}
