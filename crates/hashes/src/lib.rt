// The hash table of a name index (gimli's `find_by_bucket`, `find_by_hash`, `NameBucketIter` and `NameHashIter`; SPECIFICATION 10;
// DWARF 5, 6.1.1.4.5): the names of a bucket and the names that store a hash, by steps.
//
// gimli's methods of an index are functions here, given the section and the index: 13 and 14 are tested first, in this order;
// what is given `Parts`, those of an index that fits, tests nothing of it again.
#![tactic(auto)]

pub mod stored; // the hash that is stored for a name
pub mod bucket; // the names of a bucket, one after another
pub mod hash; // the names that store a hash

pub use bucket::{BucketName, NameBucketIter, bucket_of, find_by_bucket, first_in_bucket, nth_u32};
pub use hash::{Found, NameHashIter, find_by_hash, pass_over};
pub use stored::name_hash;
