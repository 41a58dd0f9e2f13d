// The line of a name: its number, its stored hash, its string offset, and how many entries its series has.
// (order, section, index) stay parameters: with a struct that lends the section, contracts are no plainer (docs/DECISIONS.md).
ghost use Rattle.std.specs.Prelude.{◌≡◌};
ghost use Rattle.reader.specs.Answers.{outcome};
ghost use Rattle.reader.specs.Listing.{counted};
ghost use Rattle.entries.specs.Series.{entries_of};
ghost use Rattle.listing.specs.Names.{name_line};

use entries::{first_entry, series_entry};
use hashes::name_hash;
use index::{NameIndex, Parts, fit};
use names::name_string_offset_in;
use reader::{DebugStrOffset, Error, NameTableIndex, RunTimeEndian};

#[derive(Clone, Copy)]
pub struct NameLine {
    pub name: NameTableIndex,
    pub hash: Option<u32>,
    pub string: DebugStrOffset,
    pub entries: usize,
}

// How many entries a name has, in an index whose parts are `p`.
#[tactic(auto, using(crate::proofs::CountLaws::count_unstarted, crate::proofs::CountLaws::count_broken))]
fn entry_count(
    order: RunTimeEndian,
    section: &[u8],
    p: Parts,
    name: NameTableIndex,
) -> Result<usize, Error>
    ensures { outcome result ≡ counted (entries_of order section.now p name) }
{
    let mut at = first_entry(order, section, p, name)?;
    let mut count: usize = 0;
    while let Some(entry) = series_entry(order, section, p, at)? {
        count += 1;
        at = entry.next;
    }
    Ok(count)
}

// The line of a name.
#[tactic(auto, unfolding(crate::specs::Names::name_line))]
pub fn name_line(
    order: RunTimeEndian,
    section: &[u8],
    index: NameIndex,
    name: NameTableIndex,
) -> Result<NameLine, Error>
    ensures { outcome result ≡ name_line order section.now index name }
{
    let p = fit(section, index)?;
    let hash = name_hash(order, section, p, name)?;
    let string = name_string_offset_in(order, section, p, name)?;
    let entries = entry_count(order, section, p, name)?;
    Ok(NameLine {
        name,
        hash,
        string,
        entries,
    })
}
