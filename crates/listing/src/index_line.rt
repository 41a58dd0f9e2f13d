// The line of an index: its place, its numbers of names and buckets, and how many names its hash table misses.
// (order, section, index) stay parameters: with a struct that lends the section, contracts are no plainer (docs/DECISIONS.md).
ghost use Rattle.std.specs.Prelude.{◌≡◌};
ghost use Rattle.reader.specs.Answers.{outcome};
ghost use Rattle.index.specs.Inner.{PartsFit};
ghost use Rattle.listing.specs.Indexes.{missed_in, opened_index};

use headers::NameIndexHeader;
use index::{NameIndex, Parts, open_index};
use reader::{DebugNamesOffset, Error, RunTimeEndian};
use tables::{TableCheck, check_table_in};

#[derive(Clone, Copy)]
pub struct IndexLine {
    pub place: DebugNamesOffset,
    pub name_count: u32,
    pub bucket_count: u32,
    pub missed: Option<u32>,
}

// An index that was opened, and its line.
#[derive(Clone, Copy)]
pub struct Opened {
    pub index: NameIndex,
    pub line: IndexLine,
}

// How many names the hash table of an index whose parts are `p` misses; none where it has no hash table.
#[tactic(auto, unfolding(crate::specs::Indexes::missed_in))]
fn missed_in(order: RunTimeEndian, section: &[u8], p: Parts) -> Result<Option<u32>, Error>
    requires { PartsFit section.now p }
    ensures { outcome result ≡ missed_in order section.now p.index }
{
    Ok(match check_table_in(order, section, p)? {
        TableCheck::NoTable => None,
        TableCheck::Complete => Some(0),
        TableCheck::Incomplete(lost) => Some(lost.missed),
    })
}

// Opens the index of a header, and checks its table.
#[tactic(auto, unfolding(crate::specs::Indexes::opened_index, index::specs::Open::name_index), using(index::proofs::OpenLaws::opened_own))]
pub fn open(order: RunTimeEndian, section: &[u8], header: NameIndexHeader) -> Result<Opened, Error>
    ensures { outcome result ≡ opened_index order section.now header }
{
    let p = open_index(section, NameIndex::from(header))?;
    let missed = missed_in(order, section, p)?;
    Ok(Opened {
        index: p.index,
        line: IndexLine {
            place: header.offset,
            name_count: p.index.name_count,
            bucket_count: p.index.bucket_count,
            missed,
        },
    })
}
