// The attributes of an entry (gimli's `NameAttribute`; SPECIFICATION 9.2 and 9.8; DWARF 5, 6.1.1.4.8): their
// values in turn, of which the first of each of the five names is kept, and what such an attribute says.
#![tactic(auto)]

pub mod attribute; // what is kept of an attribute, and what it says
pub mod facts; // the first attribute of each name, kept in one pass
pub mod units; // the unit that an attribute names

pub use attribute::{EntryParent, FirstAttribute, die_offset, parent, type_hash, unit_number};
pub use facts::{Facts, read_facts};
pub use units::{compile_unit, type_unit};
