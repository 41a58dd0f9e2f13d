// Headers, indexes and abbreviations.
use crate::{Show, Style, numbers};
use abbreviations::{NameAbbreviation, ReadAttribute};
use headers::{AugmentationString, HeaderCut, NameIndexHeader, NameIndexHeaderIter};
use index::{NameIndex, Parts};
use std::io;

// A header: its place, length, bytes of a word and version, the counts C, L, F, B and N, the size A, the augmentation's place and length
// ("-" for none), and in the case programs the place and the end of what follows.
impl Show for NameIndexHeader {
    fn show(&self, rt: &impl Print, style: Style) -> io::Result<()> {
        numbers(
            rt,
            &[
                self.offset.0 as u64,
                self.length as u64,
                self.format.word_size() as u64,
                self.version as u64,
                self.compile_unit_count as u64,
                self.local_type_unit_count as u64,
                self.foreign_type_unit_count as u64,
                self.bucket_count as u64,
                self.name_count as u64,
                self.abbrev_table_size as u64,
            ],
        )?;
        augmentation(rt, self.augmentation_string)?;
        match style {
            Style::Case => self.content.show(rt, style),
            Style::Replay => Ok(()),
        }
    }
}

fn augmentation(rt: &impl Print, string: Option<AugmentationString>) -> io::Result<()> {
    match string {
        Some(a) => numbers(rt, &[a.place as u64, a.len as u64]),
        None => rt.write_all(b" -"),
    }
}

// The place where the next header begins.
impl Show for NameIndexHeaderIter {
    fn show(&self, rt: &impl Print, style: Style) -> io::Result<()> {
        self.at.show(rt, style)
    }
}

// A header's part: the place of the header, its length, the bytes of a word, and the part's place and end.
impl Show for HeaderCut {
    fn show(&self, rt: &impl Print, style: Style) -> io::Result<()> {
        numbers(
            rt,
            &[
                self.offset.0 as u64,
                self.length as u64,
                self.format.word_size() as u64,
            ],
        )?;
        self.body.show(rt, style)
    }
}

// An index: the bytes of a word, the counts C, L, F, B and N, the size A, where its parts begin and where it ends.
impl Show for NameIndex {
    fn show(&self, rt: &impl Print, _style: Style) -> io::Result<()> {
        numbers(
            rt,
            &[
                self.format.word_size() as u64,
                self.compile_unit_count as u64,
                self.local_type_unit_count as u64,
                self.foreign_type_unit_count as u64,
                self.bucket_count as u64,
                self.name_count as u64,
                self.abbrev_table_size as u64,
                self.begin as u64,
                self.end as u64,
            ],
        )
    }
}

// The places of the eight parts and of the pool, and the end.
impl Show for Parts {
    fn show(&self, rt: &impl Print, _style: Style) -> io::Result<()> {
        numbers(
            rt,
            &[
                self.compile_unit_list as u64,
                self.local_type_unit_list as u64,
                self.foreign_type_unit_list as u64,
                self.bucket_data as u64,
                self.hash_table_data as u64,
                self.name_table_data as u64,
                self.entry_offset_data as u64,
                self.abbreviation_table as u64,
                self.entry_pool as u64,
                self.end as u64,
            ],
        )
    }
}

// A declaration: its code and tag, the place of its pairs and the place past them. (The replay shows its pairs instead, which it has to read.)
impl Show for NameAbbreviation {
    fn show(&self, rt: &impl Print, _style: Style) -> io::Result<()> {
        numbers(
            rt,
            &[
                self.code,
                self.tag as u64,
                self.attributes as u64,
                self.next as u64,
            ],
        )
    }
}

// A pair of name and form, and the place past it.
impl Show for ReadAttribute {
    fn show(&self, rt: &impl Print, _style: Style) -> io::Result<()> {
        numbers(rt, &[self.name as u64, self.form as u64, self.next as u64])
    }
}
