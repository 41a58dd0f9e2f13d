// Where the parts of an index lie (gimli's `NameIndex`; SPECIFICATION 6.1 and 6.2; DWARF 5, 6.1.1.4).
//
// gimli's struct holds a reader for each part. Here it holds the counts, the place where the parts begin and the place where the
// pool ends; every part's place follows from these, so that no two fields can contradict each other.
ghost use Rattle.std.specs.Prelude.{◌≡◌, ◌≤◌};
ghost use Rattle.reader.specs.Answers.{outcome};
ghost use Rattle.reader.specs.Errors.{longest};
ghost use Rattle.index.specs.Layout.{hash_bytes, parts, fitted};

use crate::word::words;
use reader::{Error, Format, too_long};

// An index of the section. The default is one without names and units, which fits every section: for a cursor that has opened none yet.
#[derive(Clone, Copy, Default)]
pub struct NameIndex {
    pub format: Format,
    pub compile_unit_count: u32,
    pub local_type_unit_count: u32,
    pub foreign_type_unit_count: u32,
    pub bucket_count: u32,
    pub name_count: u32,
    pub abbrev_table_size: u32,
    // Where its parts begin, and where its pool ends.
    pub begin: usize,
    pub end: usize,
}

// An index with the place where each of its parts begins. Each ends where the next begins, and the pool ends at `end`. Inner functions are
// given these of an index that fits, so that the call above them tests once that it does (`fit`). The default are those of the default index.
#[derive(Clone, Copy, Default)]
pub struct Parts {
    pub index: NameIndex,
    pub compile_unit_list: usize,
    pub local_type_unit_list: usize,
    pub foreign_type_unit_list: usize,
    pub bucket_data: usize,
    pub hash_table_data: usize,
    pub name_table_data: usize,
    pub entry_offset_data: usize,
    pub abbreviation_table: usize,
    pub entry_pool: usize,
    pub end: usize,
}

// The bytes of the hashes: none without buckets.
#[tactic(auto, unfolding(crate::specs::Layout::hash_bytes))]
fn hashes(buckets: u32, names: u32) -> usize
    ensures { result ≡ hash_bytes buckets names }
{
    if buckets == 0 {
        return 0;
    }
    4 * (names as usize)
}

// Where each part of the index begins.
// (They need the section's limit, so no `From`.)
#[tactic(auto, unfolding(crate::specs::Layout::parts, crate::specs::Layout::place, crate::specs::Layout::places_from, crate::specs::Layout::sizes), using(crate::proofs::LayoutLaws::words_most, crate::proofs::LayoutLaws::hashes_most, reader::proofs::ErrorLaws::longest_most))]
pub fn places(index: NameIndex) -> Parts
    requires { index.begin ≤ longest }
    ensures { result ≡ parts index }
{
    let names = words(index.format, index.name_count);
    let local = index.begin + words(index.format, index.compile_unit_count);
    let foreign = local + words(index.format, index.local_type_unit_count);
    let buckets = foreign + 8 * (index.foreign_type_unit_count as usize);
    let table = buckets + 4 * (index.bucket_count as usize);
    let strings = table + hashes(index.bucket_count, index.name_count);
    let entries = strings + names;
    let abbreviations = entries + names;
    Parts {
        index,
        compile_unit_list: index.begin,
        local_type_unit_list: local,
        foreign_type_unit_list: foreign,
        bucket_data: buckets,
        hash_table_data: table,
        name_table_data: strings,
        entry_offset_data: entries,
        abbreviation_table: abbreviations,
        entry_pool: abbreviations + (index.abbrev_table_size as usize),
        end: index.end,
    }
}

// Where the parts of an index lie in a section that it fits. The index's places are compared with the section's length before
// anything is added to them, so that no sum is too large for its type.
#[tactic(auto, unfolding(crate::specs::Layout::fitted), using(crate::proofs::LayoutLaws::pool_past))]
pub fn fit(section: &[u8], index: NameIndex) -> Result<Parts, Error>
    ensures { outcome result ≡ fitted section.now index }
{
    if too_long(section) {
        return Err(Error::SectionTooLong);
    }
    if section.len() < index.end {
        return Err(Error::DoesNotFit);
    }
    if section.len() < index.begin {
        return Err(Error::DoesNotFit);
    }
    let p = places(index);
    if index.end < p.entry_pool {
        return Err(Error::DoesNotFit);
    }
    Ok(p)
}
