// The counts of an index that fits its section. Each is an exported function of its own, since C knows no generic one.
ghost use Rattle.std.specs.Prelude.{◌≡◌};
ghost use Rattle.names.specs.Counts.{compile_unit_count_of, local_type_unit_count_of, foreign_type_unit_count_of, type_unit_count, bucket_count_of, name_count_of, has_hash_table};
ghost use Rattle.handles.specs.Handles.{index_from};
ghost use Rattle.answers.specs.Answers.{handed, count_answer, flag_answer};

use answers::{DebugNamesAnswer, count_answer, flag_answer};
use handles::DebugNamesIndex;
use index::NameIndex;
use names::{
    bucket_count, compile_unit_count, foreign_type_unit_count, has_hash_table,
    local_type_unit_count, name_count, type_unit_count,
};

// The number of compile units.
#[unsafe(no_mangle)]
pub extern "C" fn debug_names_compile_unit_count(
    section: &[u8],
    index: DebugNamesIndex,
) -> DebugNamesAnswer
    ensures { result ≡ handed count_answer (compile_unit_count_of section.now (index_from index)) }
{
    count_answer(compile_unit_count(section, NameIndex::from(index)))
}

// The number of local type units.
#[unsafe(no_mangle)]
pub extern "C" fn debug_names_local_type_unit_count(
    section: &[u8],
    index: DebugNamesIndex,
) -> DebugNamesAnswer
    ensures { result ≡ handed count_answer (local_type_unit_count_of section.now (index_from index)) }
{
    count_answer(local_type_unit_count(section, NameIndex::from(index)))
}

// The number of foreign type units.
#[unsafe(no_mangle)]
pub extern "C" fn debug_names_foreign_type_unit_count(
    section: &[u8],
    index: DebugNamesIndex,
) -> DebugNamesAnswer
    ensures { result ≡ handed count_answer (foreign_type_unit_count_of section.now (index_from index)) }
{
    count_answer(foreign_type_unit_count(section, NameIndex::from(index)))
}

// The number of type units, local and foreign.
#[unsafe(no_mangle)]
pub extern "C" fn debug_names_type_unit_count(
    section: &[u8],
    index: DebugNamesIndex,
) -> DebugNamesAnswer
    ensures { result ≡ handed count_answer (type_unit_count section.now (index_from index)) }
{
    count_answer(type_unit_count(section, NameIndex::from(index)))
}

// The number of buckets.
#[unsafe(no_mangle)]
pub extern "C" fn debug_names_bucket_count(
    section: &[u8],
    index: DebugNamesIndex,
) -> DebugNamesAnswer
    ensures { result ≡ handed count_answer (bucket_count_of section.now (index_from index)) }
{
    count_answer(bucket_count(section, NameIndex::from(index)))
}

// The number of names.
#[unsafe(no_mangle)]
pub extern "C" fn debug_names_name_count(section: &[u8], index: DebugNamesIndex) -> DebugNamesAnswer
    ensures { result ≡ handed count_answer (name_count_of section.now (index_from index)) }
{
    count_answer(name_count(section, NameIndex::from(index)))
}

// Whether the index has a hash table.
#[unsafe(no_mangle)]
pub extern "C" fn debug_names_has_hash_table(
    section: &[u8],
    index: DebugNamesIndex,
) -> DebugNamesAnswer
    ensures { result ≡ handed flag_answer (has_hash_table section.now (index_from index)) }
{
    flag_answer(has_hash_table(section, NameIndex::from(index)))
}
