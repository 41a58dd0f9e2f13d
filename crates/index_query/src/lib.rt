// The section query in one index (SPECIFICATION 12.3 to 12.6): from an index to its records, one after another. The walk over the
// indexes of a section stands above it.
#![tactic(auto)]

pub mod candidates; // the names to look at
pub mod matching; // those of them whose string is the name
pub mod series; // the records of a series, and of the index

pub use candidates::{Candidate, first_candidate, next_candidate};
pub use matching::{name_matches, next_match};
pub use series::{IndexIter, start};
