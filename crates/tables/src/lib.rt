// Whether the hash table of an index reaches every name, and which is the first that it loses (SPECIFICATION 11: the table check, which gimli
// does not have).
//
// A name is missed if the run of its own bucket does not reach it: a lookup by its hash then does not list it. The names are passed once,
// in segments: a segment is a longest row of names that follow one another in one bucket. The run of a bucket goes no further than its first
// name of another bucket, so it reaches a name exactly if it starts in that name's segment, at the name or before it.
// (order, section, index) stay parameters: with a struct that lends the section, contracts are no plainer (docs/DECISIONS.md).
#![tactic(auto)]

ghost use Rattle.std.specs.Prelude.{◌≡◌, ◌+◌, ◌*◌, ◌^◌, ◌≤◌, ◌<◌, length};
ghost use Rattle.reader.specs.Answers.{outcome};
ghost use Rattle.index.specs.Layout.{parts};
ghost use Rattle.index.specs.Inner.{PartsFit};
ghost use Rattle.hashes.specs.Table.{nth_of, stored_hash};
ghost use Rattle.tables.specs.Check.{any_above, missed_names, table_check};
ghost use Rattle.tables.specs.Segments.{no_segment, followed, reached_by, walked_to, first_of, counted_at};

use hashes::{bucket_of, nth_u32};
use index::{NameIndex, Parts, fit};
use reader::{Error, NameTableIndex, RunTimeEndian};

// What is wrong with an incomplete table: how many names it misses, the smallest of their numbers, and the hash that is stored for that name.
#[derive(Clone, Copy)]
pub struct Incomplete {
    pub missed: u32,
    pub name: NameTableIndex,
    pub hash: u32,
}

// What the check of a table says.
#[derive(Clone, Copy)]
pub enum TableCheck {
    // The index has no hash table.
    NoTable,
    // A lookup lists every name.
    Complete,
    Incomplete(Incomplete),
}

// A segment: its bucket, and its first name.
#[derive(Clone, Copy)]
pub struct Segment {
    pub bucket: u32,
    pub first: u32,
}

// How far the names are passed: the segment of the last of them, and the next name.
#[derive(Clone, Copy)]
pub struct Walk {
    pub segment: Segment,
    pub name: u32,
}

// The missed names so far: how many, and the smallest of their numbers, which is 0 as long as there is none. (`missed` tells that, so
// an `Option` would say it twice.)
#[derive(Clone, Copy)]
pub struct Count {
    pub missed: u32,
    pub least: u32,
}

// Whether some bucket's start is above the number of names and one.
fn any_above(order: RunTimeEndian, section: &[u8], starts: usize, buckets: u32, names: u32) -> bool
    requires { starts + 4 * buckets ≤ length section.now }
    ensures { result ≡ any_above names (nth_of order section.now starts) buckets }
{
    let last = names as usize + 1;
    (0..buckets).any(|bucket| last < nth_u32(order, section, starts, bucket) as usize)
}

// Before the first name: a segment of a bucket that no name has, so that the first name begins a segment.
// (It depends on the index, so it is no `Default`.)
#[tactic(auto, unfolding(crate::specs::Segments::no_segment))]
fn no_segment(index: NameIndex) -> Segment
    ensures { result ≡ no_segment index }
{
    Segment {
        bucket: index.bucket_count,
        first: 0,
    }
}

// The segment of a name that stores the hash, from the segment of the name before it.
#[tactic(auto, unfolding(crate::specs::Segments::followed))]
fn follow(index: NameIndex, before: Segment, name: u32, hash: u32) -> Segment
    ensures { result ≡ followed index before name hash }
{
    let bucket = bucket_of(index, hash);
    if bucket == before.bucket {
        return before;
    }
    Segment {
        bucket,
        first: name,
    }
}

// Whether the run with this start reaches a name of its bucket, in a segment that begins with the name `first`. A start is one more than the number of
// the name where the run begins, and 0 where there is no run.
#[tactic(auto, unfolding(crate::specs::Segments::reached_by))]
fn is_reached(start: u32, first: u32, name: u32) -> bool
    ensures { result ≡ reached_by start first name }
{
    if start <= first {
        return false;
    }
    start - 1 <= name
}

// The first missed name, and the segment before it; where no name is missed, all names are passed.
//
// Most tables are complete, so this is where the time goes. The start of a name's bucket is read at each name, though it is the same for all names of
// a segment. Read only where a segment begins, it would stand behind a jump that a processor often guesses wrong, and a wrong guess takes longer
// than the read. So `follow` only chooses between values, and the jumps that are left always go the same way up to the first missed name.
#[tactic(auto, unfolding(crate::specs::Segments::walked_to, crate::specs::Segments::first_of, hashes::specs::Table::stored_hash), using(crate::proofs::CheckLaws::fitted_parts, crate::proofs::CheckLaws::walked_first, crate::proofs::CheckLaws::left_all, crate::proofs::CheckLaws::left_on, crate::proofs::CheckLaws::left_found, crate::proofs::CheckLaws::left_none, crate::proofs::CheckLaws::missed_here, crate::proofs::SegmentLaws::before_suc, crate::proofs::CheckLaws::followed_below, hashes::proofs::TableLaws::hashes_within, hashes::proofs::TableLaws::starts_within))]
fn first_missed(order: RunTimeEndian, section: &[u8], p: Parts) -> Walk
    requires { PartsFit section.now p × (0 < p.index.bucket_count) }
    ensures { result ≡ walked_to p.index (stored_hash order section.now (parts p.index)) (first_of p.index.name_count (missed_names order section.now p.index)) }
{
    let index = p.index;
    let starts = p.bucket_data;
    let hashes = p.hash_table_data;
    let mut segment = no_segment(index);
    for name in 0..index.name_count {
        let hash = nth_u32(order, section, hashes, name);
        let own = follow(index, segment, name, hash);
        let start = nth_u32(order, section, starts, own.bucket);
        let reached = is_reached(start, own.first, name);
        if !reached {
            return Walk { segment, name };
        }
        segment = own;
    }
    Walk {
        segment,
        name: index.name_count,
    }
}

// The count after a name of the segment, from the count before it, which has room for one more; `start` is the start of the segment's bucket.
#[tactic(auto, unfolding(crate::specs::Segments::counted_at, crate::specs::Segments::one_more))]
fn counted(before: Count, segment: Segment, start: u32, name: u32) -> Count
    requires { before.missed + 1 < 2 ^ 32 }
    ensures { result ≡ counted_at before segment start name }
{
    if is_reached(start, segment.first, name) {
        return before;
    }
    let missed = before.missed + 1;
    if before.missed == 0 {
        return Count {
            missed,
            least: name,
        };
    }
    Count {
        missed,
        least: before.least,
    }
}

// Whether lookups by hash list every name, in an index whose parts are `p`: no table, a refusal for a start above the number of names and one, complete, or incomplete with
// the number of names that are missed, the smallest of them and its hash.
#[tactic(auto, unfolding(crate::specs::Check::table_check, crate::specs::Segments::walked_to, crate::specs::Segments::counted_at, hashes::specs::Table::stored_start, hashes::specs::Table::stored_hash), using(crate::proofs::CheckLaws::fitted_parts, crate::proofs::CheckLaws::missed_here, crate::proofs::CheckLaws::kept_on, crate::proofs::CheckLaws::kept_more, crate::proofs::CheckLaws::kept_most, crate::proofs::CheckLaws::kept_least, crate::proofs::CheckLaws::kept_first, crate::proofs::CheckLaws::told_complete, crate::proofs::CheckLaws::told_lost, crate::proofs::SegmentLaws::before_suc, crate::proofs::CheckLaws::followed_below, hashes::proofs::TableLaws::hashes_within, hashes::proofs::TableLaws::starts_within))]
pub fn check_table_in(order: RunTimeEndian, section: &[u8], p: Parts) -> Result<TableCheck, Error>
    requires { PartsFit section.now p }
    ensures { outcome result ≡ table_check order section.now p.index }
{
    let index = p.index;
    let starts = p.bucket_data;
    let hashes = p.hash_table_data;
    if index.bucket_count == 0 {
        return Ok(TableCheck::NoTable);
    }
    if any_above(order, section, starts, index.bucket_count, index.name_count) {
        return Err(Error::UnexpectedEof(hashes));
    }
    // No name before the first missed one is missed, so the count begins there, with none.
    let first = first_missed(order, section, p);
    let mut segment = first.segment;
    let mut count = Count {
        missed: 0,
        least: 0,
    };
    for name in first.name..index.name_count {
        let hash = nth_u32(order, section, hashes, name);
        segment = follow(index, segment, name, hash);
        let start = nth_u32(order, section, starts, segment.bucket);
        count = counted(count, segment, start, name);
    }
    if count.missed == 0 {
        return Ok(TableCheck::Complete);
    }
    let hash = nth_u32(order, section, hashes, count.least);
    Ok(TableCheck::Incomplete(Incomplete {
        missed: count.missed,
        name: NameTableIndex(count.least),
        hash,
    }))
}

// The check of an index: 13 and 14 come first.
#[tactic(auto, unfolding(crate::specs::Check::table_check), using(index::proofs::LayoutLaws::fitted_own))]
pub fn check_table(
    order: RunTimeEndian,
    section: &[u8],
    index: NameIndex,
) -> Result<TableCheck, Error>
    ensures { outcome result ≡ table_check order section.now index }
{
    check_table_in(order, section, fit(section, index)?)
}
