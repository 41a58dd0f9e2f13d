// The headers of a .debug_names section (gimli's names.rs from `DebugNames` to `NameIndexHeader`; SPECIFICATION 5; DWARF 5,
// 6.1.1.4.1).
//
// gimli's readers hold the bytes; here cursors and headers are numbers by value, and the section is lent to each call. So a caller
// may bring any numbers: a step first tests that the section is not too long (refusal 13), then that its cursor fits the section
// (refusal 14), and then reads as gimli does.
#![tactic(auto)]

pub mod header; // a header: its part cut out by its length, and its fields
pub mod headers; // the headers of a section, one after another

pub use header::{AugmentationString, HeaderCut, NameIndexHeader, cut_header, parse_body};
pub use headers::{DebugNames, NameIndexHeaderIter};
