// The five facts of an entry, from its handle (gimli's methods of `NameEntry`). The entry is read whole first and refuses as
// `name_entry` does; then the first attribute of the name decides. The five calls are gimli's; each reads the entry and asks another
// attribute, and a function over the two would be longer than both.
// (order, section, index) stay parameters: with a struct that lends the section, contracts are no plainer (docs/DECISIONS.md).
ghost use Rattle.std.specs.Prelude.{◌≡◌};
ghost use Rattle.reader.specs.Answers.{outcome};
ghost use Rattle.entries.specs.Facts.{entry_compile_unit, entry_type_unit, entry_die_offset, entry_parent, entry_type_hash};

use crate::entry::whole_entry;
use attributes::EntryParent;
use index::{NameIndex, fit};
use names::NameTypeUnit;
use reader::{DebugInfoOffset, Error, NameEntryOffset, RunTimeEndian, UnitOffset};

// The compile unit that the entry names.
#[tactic(auto, using(crate::proofs::FactLaws::compile_unit_step))]
pub fn compile_unit(
    order: RunTimeEndian,
    section: &[u8],
    index: NameIndex,
    offset: NameEntryOffset,
) -> Result<Option<DebugInfoOffset>, Error>
    ensures { outcome result ≡ entry_compile_unit order section.now index offset }
{
    let p = fit(section, index)?;
    let entry = whole_entry(order, section, p, offset)?;
    attributes::compile_unit(order, section, p, entry.facts.compile_unit)
}

// The type unit that the entry names.
#[tactic(auto, using(crate::proofs::FactLaws::type_unit_step))]
pub fn type_unit(
    order: RunTimeEndian,
    section: &[u8],
    index: NameIndex,
    offset: NameEntryOffset,
) -> Result<Option<NameTypeUnit>, Error>
    ensures { outcome result ≡ entry_type_unit order section.now index offset }
{
    let p = fit(section, index)?;
    let entry = whole_entry(order, section, p, offset)?;
    attributes::type_unit(order, section, p, entry.facts.type_unit)
}

// The offset of the entry's DIE in its unit.
#[tactic(auto, using(crate::proofs::FactLaws::die_offset_step))]
pub fn die_offset(
    order: RunTimeEndian,
    section: &[u8],
    index: NameIndex,
    offset: NameEntryOffset,
) -> Result<Option<UnitOffset>, Error>
    ensures { outcome result ≡ entry_die_offset order section.now index offset }
{
    let p = fit(section, index)?;
    let entry = whole_entry(order, section, p, offset)?;
    attributes::die_offset(entry.facts.die_offset)
}

// The parent of the entry: an entry's offset, no parent, or not known.
#[tactic(auto, using(crate::proofs::FactLaws::parent_step))]
pub fn parent(
    order: RunTimeEndian,
    section: &[u8],
    index: NameIndex,
    offset: NameEntryOffset,
) -> Result<EntryParent, Error>
    ensures { outcome result ≡ entry_parent order section.now index offset }
{
    let p = fit(section, index)?;
    let entry = whole_entry(order, section, p, offset)?;
    attributes::parent(entry.facts.parent)
}

// The hash of the type.
#[tactic(auto, using(crate::proofs::FactLaws::type_hash_step))]
pub fn type_hash(
    order: RunTimeEndian,
    section: &[u8],
    index: NameIndex,
    offset: NameEntryOffset,
) -> Result<Option<u64>, Error>
    ensures { outcome result ≡ entry_type_hash order section.now index offset }
{
    let p = fit(section, index)?;
    let entry = whole_entry(order, section, p, offset)?;
    attributes::type_hash(entry.facts.type_hash)
}
