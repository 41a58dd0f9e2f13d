// The strings of .debug_str (gimli's read/str.rs; SPECIFICATION 7.7): where the string at an offset stands, and its bytes.
#![tactic(auto)]

ghost use Rattle.std.specs.Prelude.{◌≡◌, ◌==◌, position};
ghost use Rattle.reader.specs.Answers.{outcome};
ghost use Rattle.strings.specs.Strings.{get_str, str_bytes};

use reader::{DebugStrOffset, Error, skip, too_long};

// The lent .debug_str section. gimli's struct holds the section's bytes; here they are lent to each call.
#[derive(Clone, Copy)]
pub struct DebugStr;

// Where a string stands in .debug_str: its first byte, and its length without the zero byte that ends it.
#[derive(Clone, Copy)]
pub struct Str {
    pub start: usize,
    pub len: usize,
}

// How many bytes stand before the first zero byte, where there is one.
fn zero_byte(bytes: &[u8]) -> Option<usize>
    ensures { result ≡ position (λ b. b == 0) bytes.now }
{
    bytes.iter().position(|b| *b == 0)
}

impl DebugStr {
    // Where the string at an offset stands: up to the first zero byte. Without one it is refused at the string's start, and an
    // offset past the section's end is refused at place 0.
    #[tactic(auto, unfolding(crate::specs::Strings::get_str), using(crate::proofs::StringLaws::zero_found, crate::proofs::StringLaws::zero_missing, reader::proofs::PartLaws::skip_answered, std::proofs::lemmas::List::take_rest))]
    pub fn get_str(section: &[u8], offset: DebugStrOffset) -> Result<Str, Error>
        ensures { outcome result ≡ get_str section.now offset.0 }
    {
        if too_long(section) {
            return Err(Error::SectionTooLong);
        }
        let start = skip(offset.0, section, 0, section.len())?;
        match zero_byte(&section[start..]) {
            Some(len) => Ok(Str { start, len }),
            None => Err(Error::UnexpectedEof(start)),
        }
    }

    // The bytes of the string at an offset, as a part of the lent section; no bytes where `get_str` refuses.
    #[tactic(auto, unfolding(crate::specs::Strings::str_bytes, crate::specs::Strings::text_bytes), using(crate::proofs::StringLaws::str_inside))]
    pub fn get_str_slice<'a>(section: &'a [u8], offset: DebugStrOffset) -> &'a [u8]
        ensures { result.now ≡ str_bytes section.now offset.0 }
    {
        match DebugStr::get_str(section, offset) {
            Ok(string) => &section[string.start..string.start + string.len],
            Err(_) => &section[..0],
        }
    }
}
