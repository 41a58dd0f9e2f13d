// The records of an index: for each name that matches, those of its entries, one after another.
// (order, section, strings, hash, name) stay parameters: with a struct that lends slices, contracts are no plainer (docs/DECISIONS.md).
ghost use Rattle.std.specs.Prelude.{◌≡◌, ℕ, ◌≤◌, List, length};
ghost use Rattle.reader.specs.Errors.{longest};
ghost use Rattle.reader.specs.Answers.{outcome};
ghost use Rattle.reader.specs.Listing.{item, or_broken, left_by};
ghost use Rattle.index.specs.Inner.{PartsFit};
ghost use Rattle.index_query.specs.Records.{index_records};
ghost use Rattle.index_query.specs.Inner.{entry_records, entry_left, index_left};

use crate::candidates::first_candidate;
use crate::matching::next_match;
use entries::{first_entry, series_entry};
use index::Parts;
use reader::{Error, NameTableIndex, Read, RunTimeEndian};
use records::{Record, entry_record};

// A cursor over the records of an index: the name whose entries are being read, the place of the next of them, and the number from which on the
// candidates after it are looked for. Any cursor is legal.
#[derive(Clone, Copy)]
pub struct IndexIter {
    pub name: NameTableIndex,
    pub at: usize,
    pub next: u32,
}

// The record of the entry at a place of the pool, with the place past it; none where the series ends. The index lies at `offset` in the
// section.
#[tactic(auto, using(crate::proofs::RecordLaws::entry_records_step, crate::proofs::RecordLaws::read_inside, crate::proofs::RecordLaws::places_small), unfolding(crate::proofs::RecordLaws::entry_after))]
fn pool_record(
    order: RunTimeEndian,
    section: &[u8],
    offset: u32,
    p: Parts,
    name: NameTableIndex,
    at: usize,
) -> Result<Option<Read<Record>>, Error>
    requires { length section.now ≤ longest }
    ensures { left_by result (entry_left order section.now offset p name.0) ≡ entry_records order section.now offset p name.0 at }
{
    let Some(w) = series_entry(order, section, p, at)? else {
        return Ok(None);
    };
    let entry = at.saturating_sub(p.entry_pool) as u32;
    let record = entry_record(order, section, p, offset, name, entry, w.tag, w.facts)?;
    Ok(Some(Read {
        value: record,
        next: w.next,
    }))
}

// The cursor before the first record of an index: no entry is being read.
#[tactic(auto, using(crate::proofs::RecordLaws::start_left), unfolding(crate::specs::Records::index_records))]
pub fn start(order: RunTimeEndian, section: &[u8], hash: u32, p: Parts) -> Result<IndexIter, Error>
    requires { PartsFit section.now p }
    ensures { (strings name : List ℕ) (offset : ℕ) → or_broken (outcome result) (index_left order section.now strings hash name offset p) ≡ index_records order section.now strings hash name offset p }
{
    let next = first_candidate(order, section, hash, p)?;
    Ok(IndexIter {
        name: NameTableIndex(0),
        at: p.end,
        next,
    })
}

impl IndexIter {
    // The next record of the index, which lies at `offset` in the section. After an end or a refusal the cursor is worth nothing.
    #[tactic(auto, using(crate::proofs::RecordLaws::short_fits, crate::proofs::RecordLaws::next_series, crate::proofs::RecordLaws::series_refused, crate::proofs::RecordLaws::none_left, crate::proofs::RecordLaws::match_refused, crate::proofs::RecordLaws::fewer_matches), unfolding(crate::specs::Inner::index_left, reader::specs::Listing::followed_by))]
    pub fn next(
        &mut self,
        order: RunTimeEndian,
        section: &[u8],
        strings: &[u8],
        hash: u32,
        name: &[u8],
        offset: u32,
        p: Parts,
    ) -> Result<Option<Record>, Error>
        requires { PartsFit section.now p }
        ensures { left_by result (λ r. item r (index_left order section.now strings.now hash name.now offset p self.new)) ≡ index_left order section.now strings.now hash name.now offset p self.old }
    {
        loop {
            if let Some(record) = pool_record(order, section, offset, p, self.name, self.at)? {
                self.at = record.next;
                return Ok(Some(record.value));
            }
            let Some(found) = next_match(order, section, strings, hash, name, p, self.next)? else {
                return Ok(None);
            };
            let at = first_entry(order, section, p, found.name)?;
            *self = IndexIter {
                name: found.name,
                at,
                next: found.next,
            };
        }
    }
}
