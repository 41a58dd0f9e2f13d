// The names of a bucket, one after another (gimli's `NameIndex::find_by_bucket` and `NameBucketIter`).
// (order, section, index) stay parameters: with a struct that lends the section, contracts are no plainer (docs/DECISIONS.md).
ghost use Rattle.std.specs.Prelude.{◌≡◌, ◌+◌, ◌*◌, ◌≤◌, length};
ghost use Rattle.reader.specs.Answers.{outcome};
ghost use Rattle.reader.specs.Steps.{step_of};
ghost use Rattle.hashes.specs.Table.{nth_of, bucket_of};
ghost use Rattle.hashes.specs.Lookups.{first_in_bucket, find_by_bucket, bucket_step};

use index::{NameIndex, Parts, fit};
use reader::{Error, NameTableIndex, Number, RunTimeEndian, Step, read_number, skip};

// A cursor over the names of a bucket: the number of the name to examine next, and the bucket. It fits an index if the bucket is below
// the number of buckets; any name number fits.
#[derive(Clone, Copy)]
pub struct NameBucketIter {
    pub name_table_index: NameTableIndex,
    pub bucket_index: u32,
}

// A name of a bucket, and the hash that is stored for it.
#[derive(Clone, Copy)]
pub struct BucketName {
    pub name: NameTableIndex,
    pub hash: u32,
}

// The number of four bytes at a position, counted from 0, in a table of such numbers that begins at `table`.
#[tactic(auto, unfolding(crate::specs::Table::nth_of))]
pub fn nth_u32(order: RunTimeEndian, s: &[u8], table: usize, position: u32) -> u32
    requires { table + 4 * position + 4 ≤ length s.now }
    ensures { result ≡ nth_of order s.now table position }
{
    u32::at(order, s, table + 4 * (position as usize))
}

// The bucket of a hash: the hash modulo the number of buckets, and 0 where there are none.
#[tactic(auto, unfolding(crate::specs::Table::bucket_of))]
pub fn bucket_of(index: NameIndex, hash: u32) -> u32
    ensures { result ≡ bucket_of index hash }
{
    if index.bucket_count == 0 {
        return 0;
    }
    hash % index.bucket_count
}

// The first name of a bucket, in the table of an index whose parts lie at `p`; none where the start that is stored for the bucket is 0. A start
// one past the last name is taken, as in gimli; a later one is refused.
#[tactic(auto, unfolding(crate::specs::Lookups::first_in_bucket))]
pub fn first_in_bucket(
    order: RunTimeEndian,
    section: &[u8],
    p: Parts,
    bucket: u32,
) -> Result<Option<u32>, Error>
    ensures { outcome result ≡ first_in_bucket order section.now p bucket }
{
    let place = skip(
        4 * (bucket as usize),
        section,
        p.bucket_data,
        p.hash_table_data,
    )?;
    let start = read_number::<u32>(order, section, place, p.hash_table_data)?;
    if start.value == 0 {
        return Ok(None);
    }
    let first = start.value - 1;
    skip(
        4 * (first as usize),
        section,
        p.hash_table_data,
        p.name_table_data,
    )?;
    Ok(Some(first))
}

// The cursor before the first name of a bucket, or none.
#[tactic(auto, unfolding(crate::specs::Lookups::find_by_bucket))]
pub fn find_by_bucket(
    order: RunTimeEndian,
    section: &[u8],
    index: NameIndex,
    bucket: u32,
) -> Result<Option<NameBucketIter>, Error>
    ensures { outcome result ≡ find_by_bucket order section.now index bucket }
{
    let p = fit(section, index)?;
    let first = first_in_bucket(order, section, p, bucket)?;
    Ok(first.map(|first| NameBucketIter {
        name_table_index: NameTableIndex(first),
        bucket_index: bucket,
    }))
}

impl NameBucketIter {
    // The next name of the bucket. At the number of names or above it is the end, and the cursor does not move. At a name of another
    // bucket it is the end, too, and the cursor is past that name, so that a further step goes on there, as gimli's does.
    pub fn next(
        self,
        order: RunTimeEndian,
        section: &[u8],
        index: NameIndex,
    ) -> Step<BucketName, NameBucketIter>
        ensures { step_of result.answer result.cursor ≡ bucket_step order section.now index self }
    {
        let mut cursor = self;
        let answer = cursor.advance(order, section, index);
        Step { answer, cursor }
    }

    // The same step of the cursor itself, so that a refusal can go up by `?`.
    #[tactic(auto, unfolding(crate::specs::Lookups::bucket_step, crate::specs::Table::stored_hash), using(crate::proofs::TableLaws::next_in_step, crate::proofs::TableLaws::hashes_within))]
    fn advance(
        &mut self,
        order: RunTimeEndian,
        section: &[u8],
        index: NameIndex,
    ) -> Result<Option<BucketName>, Error>
        ensures { step_of result self.new ≡ bucket_step order section.now index self.old }
    {
        let p = fit(section, index)?;
        let name = self.name_table_index;
        if index.bucket_count <= self.bucket_index {
            return Err(Error::DoesNotFit);
        }
        if index.name_count <= name.0 {
            return Ok(None);
        }
        let hash = nth_u32(order, section, p.hash_table_data, name.0);
        self.name_table_index = NameTableIndex(name.0 + 1);
        if bucket_of(index, hash) != self.bucket_index {
            return Ok(None);
        }
        Ok(Some(BucketName { name, hash }))
    }
}
