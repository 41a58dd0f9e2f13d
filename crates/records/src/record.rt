// The record of an entry: where it stands, and what is shown of it.
// (order, section, p) stay parameters: with a struct that lends the section, contracts are no plainer (docs/DECISIONS.md).
ghost use Rattle.std.specs.Prelude.{◌≡◌};
ghost use Rattle.reader.specs.Answers.{outcome};
ghost use Rattle.records.specs.Records.{Where, entry_record};

use crate::choice::entry_unit;
use attributes::{Facts, die_offset};
use index::Parts;
use reader::{Error, NameTableIndex, RunTimeEndian, UnitOffset};

// A record. Kind and value of the unit are those of `ShownUnit`. Where the DIE offset is absent, `has_die_offset` is 0 and the offset is
// 0; else it is 1. The two are plain numbers, since a caller in another language lends memory that holds anything.
#[repr(C)]
#[derive(Clone, Copy)]
pub struct Record {
    pub unit_value: u64,
    pub die_offset: UnitOffset,
    // The place of the index in the section.
    pub index_offset: u32,
    // The handle of the entry: its offset in the pool of the index.
    pub entry_offset: u32,
    pub name: NameTableIndex,
    pub tag: u16,
    pub unit_kind: u8,
    pub has_die_offset: u8,
}

// The record of an entry of an index whose parts are `p`, by its tag and the first attribute of each name: its unit, then its DIE offset.
#[tactic(auto, unfolding(crate::specs::Records::entry_record, crate::specs::Records::shown))]
pub fn entry_record(
    order: RunTimeEndian,
    section: &[u8],
    p: Parts,
    index_offset: u32,
    name: NameTableIndex,
    entry_offset: u32,
    tag: u16,
    facts: Facts,
) -> Result<Record, Error>
    ensures { outcome result ≡ entry_record order section.now p (record { index = index_offset; name = name.0; entry = entry_offset }) tag facts }
{
    let unit = entry_unit(order, section, p, facts)?;
    let (die_offset, has_die_offset) = match die_offset(facts.die_offset)? {
        Some(offset) => (offset, 1),
        None => (UnitOffset(0), 0),
    };
    Ok(Record {
        unit_value: unit.value,
        die_offset,
        index_offset,
        entry_offset,
        name,
        tag,
        unit_kind: unit.kind,
        has_die_offset,
    })
}
