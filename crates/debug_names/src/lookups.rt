// The hash table: lookups by bucket and by hash, their steps, and the table check (SPECIFICATION 10 and 11).
// (order, section, index) stay parameters, which C hands over one by one.
ghost use Rattle.std.specs.Prelude.{◌≡◌};
ghost use Rattle.hashes.specs.Lookups.{find_by_bucket, find_by_hash};
ghost use Rattle.handles.specs.Handles.{order_of, index_from};
ghost use Rattle.answers.specs.Answers.{handed, bucket_answer};
ghost use Rattle.step_answers.specs.Steps.{hash_answer};
ghost use Rattle.exported.specs.Demand3.{next_in_bucket_call, next_by_hash_call, check_table_call};

use answers::{DebugNamesAnswer, bucket_answer};
use handles::{DebugNamesHashCursor, DebugNamesIndex, order_of};
use hashes::{NameBucketIter, NameHashIter, find_by_bucket, find_by_hash};
use index::NameIndex;
use reader::NameTableIndex;
use step_answers::{
    DebugNamesBucketStep, DebugNamesHashStep, DebugNamesTable, bucket_step_answer, hash_answer,
    hash_step_answer, table_answer,
};
use tables::check_table;

// The first name of a bucket, or none.
#[unsafe(no_mangle)]
pub extern "C" fn debug_names_find_by_bucket(
    order: u32,
    section: &[u8],
    index: DebugNamesIndex,
    bucket: u32,
) -> DebugNamesAnswer
    ensures { result ≡ handed bucket_answer (find_by_bucket (order_of order) section.now (index_from index) bucket) }
{
    bucket_answer(find_by_bucket(order_of(order), section, NameIndex::from(index), bucket))
}

// The next name of a bucket, from a name on.
#[unsafe(no_mangle)]
pub extern "C" fn debug_names_next_in_bucket(
    order: u32,
    section: &[u8],
    index: DebugNamesIndex,
    bucket: u32,
    name: NameTableIndex,
) -> DebugNamesBucketStep
    ensures { result ≡ next_in_bucket_call order section.now index bucket name }
{
    let cursor = NameBucketIter {
        name_table_index: name,
        bucket_index: bucket,
    };
    bucket_step_answer(cursor.next(order_of(order), section, NameIndex::from(index)))
}

// The cursor over the names that store a hash.
#[unsafe(no_mangle)]
pub extern "C" fn debug_names_find_by_hash(
    order: u32,
    section: &[u8],
    index: DebugNamesIndex,
    hash: u32,
) -> DebugNamesHashStep
    ensures { result ≡ hash_answer (find_by_hash (order_of order) section.now (index_from index) hash) }
{
    hash_answer(find_by_hash(order_of(order), section, NameIndex::from(index), hash))
}

// The next name that stores the hash.
#[unsafe(no_mangle)]
pub extern "C" fn debug_names_next_by_hash(
    order: u32,
    section: &[u8],
    index: DebugNamesIndex,
    cursor: DebugNamesHashCursor,
) -> DebugNamesHashStep
    ensures { result ≡ next_by_hash_call order section.now index cursor }
{
    let names = NameHashIter::from(cursor);
    hash_step_answer(
        cursor,
        names.next(order_of(order), section, NameIndex::from(index)),
    )
}

// Whether lookups by hash list every name, and where they do not, how many are missed, the smallest of their numbers, and the hash that is stored
// for that name.
#[unsafe(no_mangle)]
pub extern "C" fn debug_names_check_table(
    order: u32,
    section: &[u8],
    index: DebugNamesIndex,
) -> DebugNamesTable
    ensures { result ≡ check_table_call order section.now index }
{
    table_answer(check_table(order_of(order), section, NameIndex::from(index)))
}
