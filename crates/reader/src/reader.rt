// Numbers of a fixed width at a place of a part, words, the initial length, and passing over bytes (gimli's read/reader.rs and
// read/endian_slice.rs; SPECIFICATION 3; DWARF 5, 7.4).
//
// A read or skip past the end of its part is `UnexpectedEof` with the place that was given to it.
// (s, at, end) stay parameters: with a struct of s and end, as was tried, contracts are no plainer (docs/DECISIONS.md).
ghost use Rattle.std.specs.Prelude.{◌≡◌, eqb};
ghost use Rattle.reader.specs.Answers.{outcome, outcome_as};
ghost use Rattle.reader.specs.Parts.{part_end, left_at, skipped, cut};
ghost use Rattle.reader.specs.Numbers.{read_byte, read_number, word_size, initial_length};

use crate::common::Format;
use crate::endianity::RunTimeEndian;
use crate::error::Error;
use crate::number::Number;

// What was read, and the place past it.
#[derive(Clone, Copy)]
pub struct Read<T> {
    pub value: T,
    pub next: usize,
}

impl<T> Read<T> {
    // The same in another form.
    pub fn map<U, F: FnOnce(T) -> U>(self, form: F) -> Read<U>
        requires { F.pre form self.value }
        ensures value { F.post form self.value result.value }
        ensures next { result.next ≡ self.next }
    {
        Read {
            value: form(self.value),
            next: self.next,
        }
    }
}

// An initial length: the number of bytes that follow it, the format that it tells, and the place past it.
#[derive(Clone, Copy)]
pub struct InitialLength {
    pub length: usize,
    pub format: Format,
    pub next: usize,
}

// A part that was cut out: from `at` up to `end`, where what follows it begins.
#[derive(Clone, Copy)]
pub struct Part {
    pub at: usize,
    pub end: usize,
}

// Where a part ends: at `end`, or with the section.
fn part_end(s: &[u8], end: usize) -> usize
    ensures { result ≡ part_end s.now end }
{
    end.min(s.len())
}

// How many bytes a part has from `at` on.
fn left(s: &[u8], at: usize, end: usize) -> usize
    ensures { result ≡ left_at s.now at end }
{
    part_end(s, end).saturating_sub(at)
}

// Whether nothing is left of a part from `at` on.
pub fn is_empty(s: &[u8], at: usize, end: usize) -> bool
    ensures { result ≡ eqb (left_at s.now at end) 0 }
{
    left(s, at, end) == 0
}

// The byte at `at`.
#[tactic(auto, using(crate::proofs::NumberLaws::byte_read, crate::proofs::NumberLaws::byte_missing))]
pub fn read_u8(s: &[u8], at: usize, end: usize) -> Result<Read<u8>, Error>
    ensures { outcome result ≡ read_byte s.now at end }
{
    if left(s, at, end) < 1 {
        return Err(Error::UnexpectedEof(at));
    }
    Ok(Read {
        value: s[at],
        next: at + 1,
    })
}

// The number of a type's width at `at`.
#[tactic(auto, using(crate::proofs::NumberLaws::number_read, crate::proofs::NumberLaws::number_missing))]
pub fn read_number<N: Number>(
    order: RunTimeEndian,
    s: &[u8],
    at: usize,
    end: usize,
) -> Result<Read<N>, Error>
    ensures { outcome_as (λ r. record { value = N.number r.value; next = r.next }) result ≡ read_number N.SIZE order s.now at end }
{
    if left(s, at, end) < N::SIZE {
        return Err(Error::UnexpectedEof(at));
    }
    Ok(Read {
        value: N::at(order, s, at),
        next: at + N::SIZE,
    })
}

// The word of the format at `at`: 4 bytes, or 8.
pub fn read_word(
    format: Format,
    order: RunTimeEndian,
    s: &[u8],
    at: usize,
    end: usize,
) -> Result<Read<usize>, Error>
    ensures { outcome result ≡ read_number (word_size format) order s.now at end }
{
    Ok(match format {
        Format::Dwarf32 => read_number::<u32>(order, s, at, end)?.map(|word| word as usize),
        Format::Dwarf64 => read_number::<u64>(order, s, at, end)?.map(|word| word as usize),
    })
}

// The section offset at `at`, which is a word of the format.
pub fn read_offset(
    format: Format,
    order: RunTimeEndian,
    s: &[u8],
    at: usize,
    end: usize,
) -> Result<Read<usize>, Error>
    ensures { outcome result ≡ read_number (word_size format) order s.now at end }
{
    read_word(format, order, s, at, end)
}

// The initial length at `at`, which also tells the format: DWARF 5, section 7.4.
#[tactic(auto, unfolding(crate::specs::Numbers::initial_length))]
pub fn read_initial_length(
    order: RunTimeEndian,
    s: &[u8],
    at: usize,
    end: usize,
) -> Result<InitialLength, Error>
    ensures { outcome result ≡ initial_length order s.now at end }
{
    let first = read_number::<u32>(order, s, at, end)?;
    if first.value < 0xfffffff0 {
        return Ok(InitialLength {
            length: first.value as usize,
            format: Format::Dwarf32,
            next: first.next,
        });
    }
    if first.value != 0xffffffff {
        return Err(Error::UnknownReservedLength(first.value));
    }
    let wide = read_number::<u64>(order, s, first.next, end)?;
    Ok(InitialLength {
        length: wide.value as usize,
        format: Format::Dwarf64,
        next: wide.next,
    })
}

// Passes over `len` bytes, to the place past them.
#[tactic(auto, using(crate::proofs::PartLaws::skip_inside, crate::proofs::PartLaws::skip_past))]
pub fn skip(len: usize, s: &[u8], at: usize, end: usize) -> Result<usize, Error>
    ensures { outcome result ≡ skipped len s.now at end }
{
    let stop = part_end(s, end);
    if stop < at {
        return Err(Error::UnexpectedEof(at));
    }
    if stop - at < len {
        return Err(Error::UnexpectedEof(at));
    }
    Ok(at + len)
}

// Cuts out the part of `len` bytes that begins at `at`.
#[tactic(auto, unfolding(crate::specs::Parts::cut))]
pub fn split(len: usize, s: &[u8], at: usize, end: usize) -> Result<Part, Error>
    ensures { outcome result ≡ cut len s.now at end }
{
    let next = skip(len, s, at, end)?;
    Ok(Part { at, end: next })
}
