// The library for C, C++ and Rust, `libdebug_names.a`: the calls of SPECIFICATION 15.5 as functions of numbers, lent bytes and lent records.
// include/debug_names.h declares them and says what each answers.
//
// Each function is thin: what a caller's numbers stand for, the call of the crate below, and its answer in a struct; its contract says what it
// hands over by the same definitions as that call. None requires anything.
#![tactic(auto)]

pub mod opening; // headers, and the indexes that they describe
pub mod counting; // how many units, buckets and names
pub mod units; // compile units and type units
pub mod naming; // the strings of names
pub mod lookups; // the hash table
pub mod pool; // entries and their facts
pub mod search; // the section query
