// The lines of a listing of a section (SPECIFICATION 13: what the listing program prints): a line for each index, a line for each
// of its names, and last how many indexes were listed. A refusal stands in the place of its line, and ends the listing.
//
// What is listed is decided here, a line at a step; a program only prints the lines.
#![tactic(auto)]

pub mod name; // the line of a name
pub mod index_line; // the line of an index
pub mod lines; // the lines of a section, one after another

pub use index_line::IndexLine;
pub use lines::{Line, ListingIter, section_lines};
pub use name::NameLine;
