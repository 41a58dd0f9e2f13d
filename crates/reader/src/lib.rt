// The lowest layer of the .debug_names reader: bytes into numbers, in either byte order, with numbered refusals. It keeps
// SPECIFICATION 2 and 3 (DWARF 5, 7.4). Names are gimli's.
//
// A section is read at a place, in a part. A place (SPECIFICATION 1.2) is a byte offset from the section's start. A part
// is given by the place where it ends, `end`; what lies past the section's own end belongs to no part. Any numbers are
// legal arguments: a call answers or refuses, and each answer, refusals included, equals a definition of specs/.
#![tactic(auto)]

pub mod error; // why a call says no
pub mod endianity; // the byte order
pub mod common; // the format, and the offset types
pub mod number; // numbers of a fixed width
pub mod step; // steps of a cursor
pub mod reader; // a byte, a number, a word, the initial length, skip, split

pub use common::{
    DebugInfoOffset, DebugNamesOffset, DebugStrOffset, DebugTypeSignature, Format, NameEntryOffset,
    NameTableIndex, UnitOffset,
};
pub use endianity::RunTimeEndian;
pub use error::{Error, too_long};
pub use number::Number;
pub use reader::{
    InitialLength, Part, Read, is_empty, read_initial_length, read_number, read_offset, read_u8,
    read_word, skip, split,
};
pub use step::Step;
