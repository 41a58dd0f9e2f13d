// The names that store a hash, one after another (gimli's `NameIndex::find_by_hash` and `NameHashIter`).
// (order, section, index) stay parameters: with a struct that lends the section, contracts are no plainer (docs/DECISIONS.md).
ghost use Rattle.std.specs.Prelude.{◌≡◌, ◌+◌, ◌*◌, ◌≤◌, length};
ghost use Rattle.reader.specs.Answers.{outcome};
ghost use Rattle.reader.specs.Steps.{step_of};
ghost use Rattle.hashes.specs.Table.{nth_of};
ghost use Rattle.hashes.specs.Lookups.{find_by_hash, next_storing, hash_step};

use crate::bucket::{NameBucketIter, bucket_of, find_by_bucket, nth_u32};
use index::{NameIndex, fit};
use reader::{Error, NameTableIndex, RunTimeEndian, Step};

// A cursor over the names that store a hash: the cursor over its bucket, if that has names, and the hash. It fits an index if it holds no
// bucket cursor or one that fits.
#[derive(Clone, Copy)]
pub struct NameHashIter {
    pub bucket_iter: Option<NameBucketIter>,
    pub hash: u32,
}

// Where the search for the next name ended: the name, or none at the run's end, and the number of the name to examine after it.
#[derive(Clone, Copy)]
pub struct Found {
    pub name: Option<u32>,
    pub next: u32,
}

// The cursor before the first name that stores a hash. Without buckets the start of bucket 0 is missing, and that is refused.
#[tactic(auto, unfolding(crate::specs::Lookups::find_by_hash))]
pub fn find_by_hash(
    order: RunTimeEndian,
    section: &[u8],
    index: NameIndex,
    hash: u32,
) -> Result<NameHashIter, Error>
    ensures { outcome result ≡ find_by_hash order section.now index hash }
{
    let bucket_iter = find_by_bucket(order, section, index, bucket_of(index, hash))?;
    Ok(NameHashIter { bucket_iter, hash })
}

// The first name from a number on that stores the hash, passing over the bucket's names with other hashes. `table` is where the hashes lie.
#[tactic(auto, using(crate::proofs::TableLaws::search_past, crate::proofs::TableLaws::search_ends, crate::proofs::TableLaws::search_finds, crate::proofs::TableLaws::search_on))]
pub fn pass_over(
    order: RunTimeEndian,
    section: &[u8],
    index: NameIndex,
    table: usize,
    bucket: u32,
    hash: u32,
    from: u32,
) -> Found
    requires { table + 4 * index.name_count ≤ length section.now }
    ensures { result ≡ next_storing index (nth_of order section.now table) bucket hash from }
{
    for name in from..index.name_count {
        let stored = nth_u32(order, section, table, name);
        let own = bucket_of(index, stored);
        if own != bucket {
            return Found {
                name: None,
                next: name + 1,
            };
        }
        if stored == hash {
            return Found {
                name: Some(name),
                next: name + 1,
            };
        }
    }
    Found {
        name: None,
        next: from.max(index.name_count),
    }
}

impl NameHashIter {
    // The next name that stores the hash. Names of the bucket with other hashes are passed over; the end is that of the bucket's run.
    pub fn next(
        self,
        order: RunTimeEndian,
        section: &[u8],
        index: NameIndex,
    ) -> Step<NameTableIndex, NameHashIter>
        ensures { step_of result.answer result.cursor ≡ hash_step order section.now index self }
    {
        let mut cursor = self;
        let answer = cursor.advance(order, section, index);
        Step { answer, cursor }
    }

    // The same step of the cursor itself, so that a refusal can go up by `?`.
    #[tactic(auto, unfolding(crate::specs::Lookups::hash_step, crate::specs::Table::stored_hash), using(crate::proofs::TableLaws::hashes_within))]
    fn advance(
        &mut self,
        order: RunTimeEndian,
        section: &[u8],
        index: NameIndex,
    ) -> Result<Option<NameTableIndex>, Error>
        ensures { step_of result self.new ≡ hash_step order section.now index self.old }
    {
        let p = fit(section, index)?;
        let Some(at) = self.bucket_iter else {
            return Ok(None);
        };
        if index.bucket_count <= at.bucket_index {
            return Err(Error::DoesNotFit);
        }
        let found = pass_over(
            order,
            section,
            index,
            p.hash_table_data,
            at.bucket_index,
            self.hash,
            at.name_table_index.0,
        );
        self.bucket_iter = Some(NameBucketIter {
            name_table_index: NameTableIndex(found.next),
            bucket_index: at.bucket_index,
        });
        Ok(found.name.map(|name| NameTableIndex(name)))
    }
}
