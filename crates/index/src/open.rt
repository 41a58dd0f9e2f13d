// Opening an index, and the index of a header (gimli's `NameIndex::new`; SPECIFICATION 6.3).
ghost use Rattle.std.specs.Prelude.{◌≡◌};
ghost use Rattle.reader.specs.Answers.{outcome};
ghost use Rattle.index.specs.Open.{index_of, opened, name_index};
ghost use Rattle.index.specs.Inner.{parts_inside};

use crate::layout::{NameIndex, Parts, places};
use headers::NameIndexHeader;
use reader::{Error, too_long};

impl From<NameIndexHeader> for NameIndex {
    ghost from_gives = { λ header index. index ≡ index_of header };

    // The index that a header describes.
    #[tactic(auto, unfolding(crate::specs::Open::index_of))]
    fn from(header: NameIndexHeader) -> NameIndex {
        NameIndex {
            format: header.format,
            compile_unit_count: header.compile_unit_count,
            local_type_unit_count: header.local_type_unit_count,
            foreign_type_unit_count: header.foreign_type_unit_count,
            bucket_count: header.bucket_count,
            name_count: header.name_count,
            abbrev_table_size: header.abbrev_table_size,
            begin: header.content.at,
            end: header.content.end,
        }
    }
}

// The parts of an index, if each ends inside it: the first that does not is refused at its place.
#[tactic(auto, unfolding(crate::specs::Inner::parts_inside, crate::specs::Inner::refuse_past))]
fn cut_parts(p: Parts) -> Result<Parts, Error>
    ensures { outcome result ≡ parts_inside p }
{
    let end = p.end;
    if end < p.local_type_unit_list {
        return Err(Error::UnexpectedEof(p.compile_unit_list));
    }
    if end < p.foreign_type_unit_list {
        return Err(Error::UnexpectedEof(p.local_type_unit_list));
    }
    if end < p.bucket_data {
        return Err(Error::UnexpectedEof(p.foreign_type_unit_list));
    }
    if end < p.hash_table_data {
        return Err(Error::UnexpectedEof(p.bucket_data));
    }
    if end < p.name_table_data {
        return Err(Error::UnexpectedEof(p.hash_table_data));
    }
    if end < p.entry_offset_data {
        return Err(Error::UnexpectedEof(p.name_table_data));
    }
    if end < p.abbreviation_table {
        return Err(Error::UnexpectedEof(p.entry_offset_data));
    }
    if end < p.entry_pool {
        return Err(Error::UnexpectedEof(p.abbreviation_table));
    }
    Ok(p)
}

// Opens an index: its parts are cut, and its abbreviation table is read whole.
#[tactic(auto, unfolding(crate::specs::Open::opened), using(crate::proofs::OpenLaws::cut_inside))]
pub fn open_index(section: &[u8], index: NameIndex) -> Result<Parts, Error>
    ensures { outcome result ≡ opened section.now index }
{
    if too_long(section) {
        return Err(Error::SectionTooLong);
    }
    if section.len() < index.end {
        return Err(Error::DoesNotFit);
    }
    if index.end < index.begin {
        return Err(Error::DoesNotFit);
    }
    let p = cut_parts(places(index))?;
    abbreviations::parse(section, p.abbreviation_table, p.entry_pool)?;
    Ok(p)
}

impl NameIndex {
    // The index of a header, opened.
    #[tactic(auto, unfolding(crate::specs::Open::name_index))]
    pub fn new(section: &[u8], header: NameIndexHeader) -> Result<NameIndex, Error>
        ensures { outcome result ≡ name_index section.now header }
    {
        let p = open_index(section, NameIndex::from(header))?;
        Ok(p.index)
    }
}

// The index of a header: gimli's name for `NameIndex::new`, there a method of the header.
pub fn index(section: &[u8], header: NameIndexHeader) -> Result<NameIndex, Error>
    ensures { outcome result ≡ name_index section.now header }
{
    NameIndex::new(section, header)
}
