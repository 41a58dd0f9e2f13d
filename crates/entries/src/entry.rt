// An entry of the pool (gimli's `NameEntry::parse` and `NameIndex::name_entry`). The handle of an entry is its offset in the pool.
// (order, section, index) stay parameters: with a struct that lends the section, contracts are no plainer (docs/DECISIONS.md).
ghost use Rattle.std.specs.Prelude.{◌≡◌};
ghost use Rattle.reader.specs.Answers.{outcome};
ghost use Rattle.entries.specs.Entries.{name_entry};
ghost use Rattle.entries.specs.Inner.{less_whole, entry_read, whole_entry};

use abbreviations::get;
use attributes::{Facts, read_facts};
use index::{NameIndex, Parts, fit};
use reader::{Error, NameEntryOffset, RunTimeEndian, skip};

// An entry: its handle, its abbreviation code and its tag.
#[derive(Clone, Copy)]
pub struct NameEntry {
    pub offset: NameEntryOffset,
    pub abbrev_code: u64,
    pub tag: u16,
}

// All that one pass over an entry tells: its abbreviation code, its tag, the first attribute of each name, and the place past it.
#[derive(Clone, Copy)]
pub struct WholeEntry {
    pub abbrev_code: u64,
    pub tag: u16,
    pub facts: Facts,
    pub next: usize,
}

// An entry read whole, with its handle.
#[derive(Clone, Copy)]
pub struct EntryAt {
    pub offset: NameEntryOffset,
    pub entry: WholeEntry,
}

impl From<EntryAt> for NameEntry {
    ghost from_gives = { λ e entry. entry ≡ less_whole e };

    fn from(e: EntryAt) -> NameEntry {
        NameEntry {
            offset: e.offset,
            abbrev_code: e.entry.abbrev_code,
            tag: e.entry.tag,
        }
    }
}

// The entry at a place of the pool. An entry whose code no declaration has is refused with 8.
#[tactic(auto, using(crate::proofs::EntryLaws::read_step), unfolding(crate::proofs::EntryLaws::with_found))]
#[inline(always)]
pub fn read_entry(
    order: RunTimeEndian,
    section: &[u8],
    p: Parts,
    at: usize,
) -> Result<Option<WholeEntry>, Error>
    ensures { outcome result ≡ entry_read order section.now p at }
{
    let code = leb128::read::unsigned(section, at, p.end)?;
    if code.value == 0 {
        return Ok(None);
    }
    let Some(d) = get(section, p.abbreviation_table, p.entry_pool, code.value)? else {
        return Err(Error::InvalidAbbreviationCode(code.value));
    };
    let facts = read_facts(order, section, d.attributes, p.entry_pool, code.next, p.end)?;
    Ok(Some(WholeEntry {
        abbrev_code: code.value,
        tag: d.tag,
        facts: facts.value,
        next: facts.next,
    }))
}

// The entry with that handle, read whole. At a zero code it is refused with 10.
#[tactic(auto, using(crate::proofs::EntryLaws::whole_read))]
pub fn whole_entry(
    order: RunTimeEndian,
    section: &[u8],
    p: Parts,
    offset: NameEntryOffset,
) -> Result<WholeEntry, Error>
    ensures { outcome result ≡ whole_entry order section.now p offset }
{
    let at = skip(offset.0, section, p.entry_pool, p.end)?;
    read_entry(order, section, p, at)?.ok_or(Error::NoEntryAtGivenOffset(offset))
}

// The entry with that handle.
#[tactic(auto, using(crate::proofs::EntryLaws::name_entry_read))]
pub fn name_entry(
    order: RunTimeEndian,
    section: &[u8],
    index: NameIndex,
    offset: NameEntryOffset,
) -> Result<NameEntry, Error>
    ensures { outcome result ≡ name_entry order section.now index offset }
{
    let entry = whole_entry(order, section, fit(section, index)?, offset)?;
    Ok(NameEntry::from(EntryAt { offset, entry }))
}
