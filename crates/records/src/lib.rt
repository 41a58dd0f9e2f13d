// What the section query shows of an entry (SPECIFICATION 12.5 and 12.6): a record of where the entry stands, its
// tag, its unit and its DIE offset.
//
// The unit is chosen by `entry_unit` and nowhere else.
#![tactic(auto)]

pub mod unit; // a unit that is shown, as an answer
mod type_unit; // the unit that the type_unit attribute names
mod compile_unit; // the unit that the compile_unit attribute names
pub mod choice; // the choice of the unit
pub mod record; // the record of an entry

pub use choice::entry_unit;
pub use record::{Record, entry_record};
pub use unit::ShownUnit;
