// From a header to an opened index: where an index's parts lie (gimli's `NameIndex` and `NameIndex::new`; SPECIFICATION 6; DWARF 5,
// 6.1.1.4).
//
// gimli's readers hold the bytes; here headers and indexes are numbers by value, and the section is lent to each call. So a caller
// may bring any numbers: each call first tests that the section is not too long (refusal 13), then that what it was given fits the
// section (refusal 14), and then reads as gimli does.
#![tactic(auto)]

pub mod word; // words, and a list of them
pub mod layout; // an index: where each of its parts lies
pub mod open; // opening an index, and an index from a header

pub use layout::{NameIndex, Parts, fit, places};
pub use open::{index, open_index};
pub use word::{nth_word, words};
