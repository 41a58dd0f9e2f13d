// What several test programs make of a case: a reading by its letter, and the index that a case describes.
#![tactic(auto)]

mod opening; // the index of a case
mod reads; // bytes, numbers and strings

pub use opening::index_of;
pub use reads::reading;
