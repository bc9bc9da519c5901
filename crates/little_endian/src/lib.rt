// Numbers as little-endian bytes: the bits of floats (document 01, "Row of a file", the body of kind 3), and words of texts (W-205).
#![tactic(auto)]

ghost use Rattle.std.specs.Prelude.{◌≡◌, ℕ, ◌≤◌, List, length, take};
ghost use Rattle.little_endian.specs.LittleEndian.{little, load};

// A number of some width, and the bytes that hold it, the lowest first.
pub trait Word {
    type Bytes;

    // how many bytes
    ghost width: { ℕ };

    ghost number: { Self → ℕ };

    ghost list: { Self.Bytes → List ℕ };

    fn bytes(self) -> Self::Bytes
        ensures { list result ≡ little width (number self) };

    // The number that the bytes at the front of s hold; 0 if s is shorter.
    fn load(s: &[u8]) -> Self
        ensures value { number result ≡ load width s.now }
        ensures bytes { width ≤ length s.now → little width (number result) ≡ take width s.now };
}

// The bits of an f32.
impl Word for u32 {
    type Bytes = [u8; 4];

    ghost width = { 4 };

    ghost number = { λ n. n };

    ghost list = { λ b. b };

    fn bytes(self) -> [u8; 4] {
        u32::to_le_bytes(self)
    }

    fn load(s: &[u8]) -> u32 {
        match s.first_chunk() {
            Some(&bytes) => u32::from_le_bytes(bytes),
            None => 0,
        }
    }
}

// The bits of an f64, or eight bytes of a text.
impl Word for u64 {
    type Bytes = [u8; 8];

    ghost width = { 8 };

    ghost number = { λ n. n };

    ghost list = { λ b. b };

    fn bytes(self) -> [u8; 8] {
        u64::to_le_bytes(self)
    }

    fn load(s: &[u8]) -> u64 {
        match s.first_chunk() {
            Some(&bytes) => u64::from_le_bytes(bytes),
            None => 0,
        }
    }
}
