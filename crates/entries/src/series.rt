// The series of a name: its entries, one after another (gimli's `NameIndex::name_entries` and `NameEntryIter`).
// (order, section, index) stay parameters: with a struct that lends the section, contracts are no plainer (docs/DECISIONS.md).
ghost use Rattle.std.specs.Prelude.{◌≡◌};
ghost use Rattle.reader.specs.Answers.{outcome};
ghost use Rattle.reader.specs.Steps.{step_of};
ghost use Rattle.entries.specs.Series.{first_entry, name_entries, entry_step};
ghost use Rattle.entries.specs.Inner.{series_read, whole_step};

use crate::entry::{EntryAt, NameEntry, WholeEntry, read_entry};
use index::{NameIndex, Parts, fit, nth_word};
use reader::{Error, NameEntryOffset, NameTableIndex, RunTimeEndian, Step, is_empty, skip};

// A cursor over the entries of a name: the place of the next one. It fits an index if that lies in the pool or at its end.
#[derive(Clone, Copy)]
pub struct NameEntryIter {
    pub at: usize,
}

// The place of a name's first entry, in an index whose parts are `p`.
#[tactic(auto, unfolding(crate::specs::Series::first_entry))]
pub fn first_entry(
    order: RunTimeEndian,
    section: &[u8],
    p: Parts,
    name: NameTableIndex,
) -> Result<usize, Error>
    ensures { outcome result ≡ first_entry order section.now p name }
{
    let offset = nth_word(
        p.index.format,
        order,
        section,
        p.entry_offset_data,
        p.abbreviation_table,
        name.0,
    )?;
    skip(offset.value, section, p.entry_pool, p.end)
}

// The entry at a place of a series, read whole; none where the series ends: at the pool's end, and at code 0.
#[tactic(auto, using(crate::proofs::SeriesLaws::series_read_step))]
#[inline(always)]
pub fn series_entry(
    order: RunTimeEndian,
    section: &[u8],
    p: Parts,
    at: usize,
) -> Result<Option<WholeEntry>, Error>
    ensures { outcome result ≡ series_read order section.now p at }
{
    if is_empty(section, at, p.end) {
        return Ok(None);
    }
    read_entry(order, section, p, at)
}

// The cursor before the first entry of a name.
#[tactic(auto, unfolding(crate::specs::Series::name_entries))]
pub fn name_entries(
    order: RunTimeEndian,
    section: &[u8],
    index: NameIndex,
    name: NameTableIndex,
) -> Result<NameEntryIter, Error>
    ensures { outcome result ≡ name_entries order section.now index name }
{
    let at = first_entry(order, section, fit(section, index)?, name)?;
    Ok(NameEntryIter { at })
}

impl NameEntryIter {
    // The next entry, read whole, in an index whose parts are `p`. At the pool's end and at code 0 the series ends. After an end or a refusal the
    // cursor is at the pool's end; a cursor that lies outside the pool is refused with 14, which leaves it as it was.
    #[inline(always)]
    pub fn next_whole(
        self,
        order: RunTimeEndian,
        section: &[u8],
        p: Parts,
    ) -> Step<EntryAt, NameEntryIter>
        ensures { step_of result.answer result.cursor ≡ whole_step order section.now p self }
    {
        let mut cursor = self;
        let answer = cursor.advance_whole(order, section, p);
        Step { answer, cursor }
    }

    // The same step of the cursor itself, so that a refusal can go up by `?`.
    #[tactic(auto, using(crate::proofs::SeriesLaws::whole_moved), unfolding(crate::proofs::SeriesLaws::moved_by))]
    #[inline(always)]
    fn advance_whole(
        &mut self,
        order: RunTimeEndian,
        section: &[u8],
        p: Parts,
    ) -> Result<Option<EntryAt>, Error>
        ensures { step_of result self.new ≡ whole_step order section.now p self.old }
    {
        let at = self.at;
        if at < p.entry_pool {
            return Err(Error::DoesNotFit);
        }
        if p.end < at {
            return Err(Error::DoesNotFit);
        }
        self.at = p.end;
        let Some(entry) = series_entry(order, section, p, at)? else {
            return Ok(None);
        };
        self.at = entry.next;
        Ok(Some(EntryAt {
            offset: NameEntryOffset(at - p.entry_pool),
            entry,
        }))
    }

    // The next entry: its handle, its code and its tag. 13 and 14 of the index leave the cursor as it was.
    pub fn next(
        self,
        order: RunTimeEndian,
        section: &[u8],
        index: NameIndex,
    ) -> Step<NameEntry, NameEntryIter>
        ensures { step_of result.answer result.cursor ≡ entry_step order section.now index self }
    {
        let mut cursor = self;
        let answer = cursor.advance(order, section, index);
        Step { answer, cursor }
    }

    // The same step of the cursor itself.
    #[tactic(auto, using(crate::proofs::SeriesLaws::entry_moved))]
    fn advance(
        &mut self,
        order: RunTimeEndian,
        section: &[u8],
        index: NameIndex,
    ) -> Result<Option<NameEntry>, Error>
        ensures { step_of result self.new ≡ entry_step order section.now index self.old }
    {
        let p = fit(section, index)?;
        let entry = self.advance_whole(order, section, p)?;
        Ok(entry.map(NameEntry::from))
    }
}
