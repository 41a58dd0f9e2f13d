// Words: numbers of 4 or 8 bytes, as the format of an index has them.
ghost use Rattle.std.specs.Prelude.{◌≡◌};
ghost use Rattle.reader.specs.Answers.{outcome};
ghost use Rattle.index.specs.Words.{word_bytes, nth_word};

use reader::{Error, Format, Read, RunTimeEndian, read_offset, skip};

// The bytes of n words.
#[tactic(auto, unfolding(crate::specs::Words::word_bytes))]
pub fn words(format: Format, n: u32) -> usize
    ensures { result ≡ word_bytes format n }
{
    match format {
        Format::Dwarf32 => 4 * (n as usize),
        Format::Dwarf64 => 8 * (n as usize),
    }
}

// The word of that number, counted from 0, in a list of words from `at` up to `end`.
#[tactic(auto, unfolding(crate::specs::Words::nth_word))]
pub fn nth_word(
    format: Format,
    order: RunTimeEndian,
    s: &[u8],
    at: usize,
    end: usize,
    number: u32,
) -> Result<Read<usize>, Error>
    ensures { outcome result ≡ nth_word format order s.now at end number }
{
    let place = skip(words(format, number), s, at, end)?;
    read_offset(format, order, s, place, end)
}
