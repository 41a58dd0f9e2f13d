// How many units, buckets and names an index has (gimli's counters of `NameIndex`). Each is given the section and the index, so that
// 13 and 14 come first; they exclude that the sum of `type_unit_count` is too large for its type, as it may be in gimli.
// Each is a call of its own (SPECIFICATION 7.1), as in gimli; a function over the field would ask for a closure and be no shorter.
ghost use Rattle.std.specs.Prelude.{◌≡◌};
ghost use Rattle.reader.specs.Answers.{outcome};
ghost use Rattle.names.specs.Counts.{compile_unit_count_of, local_type_unit_count_of, foreign_type_unit_count_of, type_unit_count, bucket_count_of, name_count_of, has_hash_table};

use index::{NameIndex, fit};
use reader::Error;

// The number of compile units.
#[tactic(auto, unfolding(crate::specs::Counts::compile_unit_count_of, crate::specs::Counts::of_fitting))]
pub fn compile_unit_count(section: &[u8], index: NameIndex) -> Result<u32, Error>
    ensures { outcome result ≡ compile_unit_count_of section.now index }
{
    fit(section, index)?;
    Ok(index.compile_unit_count)
}

// The number of local type units.
#[tactic(auto, unfolding(crate::specs::Counts::local_type_unit_count_of, crate::specs::Counts::of_fitting))]
pub fn local_type_unit_count(section: &[u8], index: NameIndex) -> Result<u32, Error>
    ensures { outcome result ≡ local_type_unit_count_of section.now index }
{
    fit(section, index)?;
    Ok(index.local_type_unit_count)
}

// The number of foreign type units.
#[tactic(auto, unfolding(crate::specs::Counts::foreign_type_unit_count_of, crate::specs::Counts::of_fitting))]
pub fn foreign_type_unit_count(section: &[u8], index: NameIndex) -> Result<u32, Error>
    ensures { outcome result ≡ foreign_type_unit_count_of section.now index }
{
    fit(section, index)?;
    Ok(index.foreign_type_unit_count)
}

// The number of type units, local and foreign.
#[tactic(auto, unfolding(crate::specs::Counts::type_unit_count, crate::specs::Counts::of_fitting))]
pub fn type_unit_count(section: &[u8], index: NameIndex) -> Result<u32, Error>
    ensures { outcome result ≡ type_unit_count section.now index }
{
    fit(section, index)?;
    Ok(index.local_type_unit_count + index.foreign_type_unit_count)
}

// The number of buckets of the hash table.
#[tactic(auto, unfolding(crate::specs::Counts::bucket_count_of, crate::specs::Counts::of_fitting))]
pub fn bucket_count(section: &[u8], index: NameIndex) -> Result<u32, Error>
    ensures { outcome result ≡ bucket_count_of section.now index }
{
    fit(section, index)?;
    Ok(index.bucket_count)
}

// The number of names.
#[tactic(auto, unfolding(crate::specs::Counts::name_count_of, crate::specs::Counts::of_fitting))]
pub fn name_count(section: &[u8], index: NameIndex) -> Result<u32, Error>
    ensures { outcome result ≡ name_count_of section.now index }
{
    fit(section, index)?;
    Ok(index.name_count)
}

// Whether the index has a hash table.
#[tactic(auto, unfolding(crate::specs::Counts::has_hash_table, crate::specs::Counts::of_fitting))]
pub fn has_hash_table(section: &[u8], index: NameIndex) -> Result<bool, Error>
    ensures { outcome result ≡ has_hash_table section.now index }
{
    fit(section, index)?;
    Ok(0 < index.bucket_count)
}
