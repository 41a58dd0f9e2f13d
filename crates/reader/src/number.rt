// Numbers of a fixed width, as the bytes of a section spell them in either byte order.
ghost use Rattle.std.specs.Prelude.{◌≡◌, ◌+◌, ◌≤◌, ℕ, length, take, drop};
ghost use Rattle.std.proofs.Common.{rules};
ghost use Rattle.reader.specs.Numbers.{number_at};

use crate::endianity::RunTimeEndian;

// A type of numbers of a fixed width.
pub trait Number: Copy {
    // How many bytes a number has.
    ghost SIZE: { ℕ };

    const SIZE: usize;

    // The number that a value of the type is.
    ghost number: { Self → ℕ };

    // The number whose bytes stand at a place.
    fn at(order: RunTimeEndian, s: &[u8], at: usize) -> Self
        requires { at + SIZE ≤ length s.now }
        ensures { number result ≡ number_at order SIZE s.now at };

    // A number has bytes.
    ghost has_bytes: { 1 ≤ SIZE };
}

// The N bytes at a place. (Copied, and not by `first_chunk().unwrap()`, which tests once more that they are there.)
fn bytes_at<const N: usize>(s: &[u8], at: usize) -> [u8; N]
    requires { at + N ≤ length s.now }
    ensures { result ≡ take N (drop at s.now) }
{
    let mut bytes = [0; N];
    bytes.copy_from_slice(&s[at..at + N]);
    bytes
}

// The three differ in the integer whose `from_le_bytes` and `from_be_bytes` they call, which the library has for each type, but in no trait.
impl Number for u16 {
    ghost SIZE = { 2 };

    const SIZE: usize = 2;

    ghost number = { λ n. n };

    ghost has_bytes = { Prim.search rules };

    fn at(order: RunTimeEndian, s: &[u8], at: usize) -> u16 {
        match order {
            RunTimeEndian::Little => u16::from_le_bytes(bytes_at(s, at)),
            RunTimeEndian::Big => u16::from_be_bytes(bytes_at(s, at)),
        }
    }
}

impl Number for u32 {
    ghost SIZE = { 4 };

    const SIZE: usize = 4;

    ghost number = { λ n. n };

    ghost has_bytes = { Prim.search rules };

    fn at(order: RunTimeEndian, s: &[u8], at: usize) -> u32 {
        match order {
            RunTimeEndian::Little => u32::from_le_bytes(bytes_at(s, at)),
            RunTimeEndian::Big => u32::from_be_bytes(bytes_at(s, at)),
        }
    }
}

impl Number for u64 {
    ghost SIZE = { 8 };

    const SIZE: usize = 8;

    ghost number = { λ n. n };

    ghost has_bytes = { Prim.search rules };

    fn at(order: RunTimeEndian, s: &[u8], at: usize) -> u64 {
        match order {
            RunTimeEndian::Little => u64::from_le_bytes(bytes_at(s, at)),
            RunTimeEndian::Big => u64::from_be_bytes(bytes_at(s, at)),
        }
    }
}
