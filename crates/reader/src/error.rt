// Why a call says no: the refusals 1 to 14 (SPECIFICATION 2.1), as gimli's `Error` with gimli's variant names; 13 and 14 are added.
// `number_of` and `value_of` of specs/Errors.antt give the number and the value of each.
ghost use Rattle.std.specs.Prelude.{◌≡◌, length, ltb};
ghost use Rattle.reader.specs.Errors.{number_of, value_of, longest};

use crate::common::NameEntryOffset;

// A refusal (SPECIFICATION 2), with the one value that it carries.
#[derive(Clone, Copy)]
pub enum Error {
    // 1. A read or skip past the end of its part, with the place where it began (in a LEB128 number, of the missing byte).
    UnexpectedEof(usize),
    // 2. An initial length that DWARF 5 reserves, with its value.
    UnknownReservedLength(u32),
    // 3. A version that is not 5, with its value.
    UnknownVersion(u16),
    // 4. A declaration with tag 0.
    AbbreviationTagZero,
    // 5. An attribute with name 0 and a form.
    AttributeNameZero,
    // 6. An attribute with a name and form 0.
    AttributeFormZero,
    // 7. A LEB128 number that does not fit its width.
    BadUnsignedLeb128,
    // 8. An entry whose code no declaration has, with the code.
    InvalidAbbreviationCode(u64),
    // 9. A form that is not one of the twelve, with the form.
    UnknownForm(u16),
    // 10. No entry at an offset, with the offset.
    NoEntryAtGivenOffset(NameEntryOffset),
    // 11. A unit number above 4,294,967,295, with its value.
    InvalidNameAttributeIndex(u64),
    // 12. An attribute in a form that its name does not allow, with the form.
    UnsupportedAttributeForm(u16),
    // 13, added. A lent section is longer than this library takes.
    SectionTooLong,
    // 14, added. An index, header or cursor does not fit the section.
    DoesNotFit,
}

impl Error {
    // The number of the refusal, 1 to 14 (SPECIFICATION 2.1).
    pub fn number(self) -> u8
        ensures { result ≡ number_of self }
    {
        match self {
            Error::UnexpectedEof(_) => 1,
            Error::UnknownReservedLength(_) => 2,
            Error::UnknownVersion(_) => 3,
            Error::AbbreviationTagZero => 4,
            Error::AttributeNameZero => 5,
            Error::AttributeFormZero => 6,
            Error::BadUnsignedLeb128 => 7,
            Error::InvalidAbbreviationCode(_) => 8,
            Error::UnknownForm(_) => 9,
            Error::NoEntryAtGivenOffset(_) => 10,
            Error::InvalidNameAttributeIndex(_) => 11,
            Error::UnsupportedAttributeForm(_) => 12,
            Error::SectionTooLong => 13,
            Error::DoesNotFit => 14,
        }
    }

    // The one value that the refusal carries, 0 where it carries none.
    pub fn value(self) -> u64
        ensures { result ≡ value_of self }
    {
        match self {
            Error::UnexpectedEof(place) => place as u64,
            Error::UnknownReservedLength(value) => value as u64,
            Error::UnknownVersion(version) => version as u64,
            Error::AbbreviationTagZero => 0,
            Error::AttributeNameZero => 0,
            Error::AttributeFormZero => 0,
            Error::BadUnsignedLeb128 => 0,
            Error::InvalidAbbreviationCode(code) => code,
            Error::UnknownForm(form) => form as u64,
            Error::NoEntryAtGivenOffset(offset) => offset.0 as u64,
            Error::InvalidNameAttributeIndex(value) => value,
            Error::UnsupportedAttributeForm(form) => form as u64,
            Error::SectionTooLong => 0,
            Error::DoesNotFit => 0,
        }
    }
}

// The most bytes that a lent section may have.
const LONGEST: usize = 2147483647;

// Whether refusal 13 is due: the section has more bytes than this library takes.
pub fn too_long(section: &[u8]) -> bool
    ensures { result ≡ ltb longest (length section.now) }
{
    LONGEST < section.len()
}
