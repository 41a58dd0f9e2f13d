// What the fixed parts of an index say: its counts, its units, its names and their strings, and its abbreviations by code (gimli's
// `NameIndex`; SPECIFICATION 7 and 8.4; DWARF 5, 6.1.1.4).
//
// gimli's methods are functions here, given the section and the index: 13 and 14 are tested first, in this order. Beside some of them stands a
// function whose name ends in `_in`: it is given the parts of an index that fits, and so tests nothing of it again.
#![tactic(auto)]

pub mod counts; // how many units, buckets and names
pub mod units; // compile units and type units
pub mod table; // the names, one after another, and their strings
pub mod declarations; // the abbreviation of a code

pub use counts::{
    bucket_count, compile_unit_count, foreign_type_unit_count, has_hash_table,
    local_type_unit_count, name_count, type_unit_count,
};
pub use declarations::get_abbreviation;
pub use table::{
    NameTableIter, name_string, name_string_in, name_string_offset, name_string_offset_in,
    name_string_slice, names,
};
pub use units::{
    NameTypeUnit, compile_unit, compile_unit_in, default_compile_unit, default_compile_unit_in,
    foreign_type_unit, local_type_unit, type_unit, type_unit_in,
};
