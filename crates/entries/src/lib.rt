// The entry pool of a name index (gimli's `NameEntryIter` and `NameEntry`; SPECIFICATION 9; DWARF 5,
// 6.1.1.4.8): single entries, the series of a name, and the five facts of an entry.
//
// gimli's methods are functions here, given the section and the index: 13 and 14 are tested first, in this order;
// what is given `Parts`, those of an index that fits, tests nothing of it again.
#![tactic(auto)]

pub mod entry; // an entry, at a place of the pool or by its handle
pub mod series; // the entries of a name, one after another
pub mod facts; // the five facts of an entry

pub use entry::{EntryAt, NameEntry, WholeEntry, name_entry, read_entry, whole_entry};
pub use facts::{compile_unit, die_offset, parent, type_hash, type_unit};
pub use series::{NameEntryIter, first_entry, name_entries, series_entry};
