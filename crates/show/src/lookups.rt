// Buckets, hashes, the table check and records.
use crate::{Show, Style, numbers};
use hashes::{BucketName, NameBucketIter, NameHashIter};
use reader::NameTableIndex;
use records::Record;
use std::io;
use tables::TableCheck;

// The cursor of a bucket, the name to examine next and the bucket; in the replay the name alone.
impl Show for NameBucketIter {
    fn show(&self, rt: &impl Print, style: Style) -> io::Result<()> {
        let name = self.name_table_index.0;
        match style {
            Style::Case => print!(rt; " ({name}/{})", self.bucket_index),
            Style::Replay => print!(rt; " {name}"),
        }
    }
}

// The cursor of a hash, the hash and the cursor that it holds; in the replay the latter alone.
impl Show for NameHashIter {
    fn show(&self, rt: &impl Print, style: Style) -> io::Result<()> {
        let hash = self.hash;
        match (style, self.bucket_iter) {
            (Style::Replay, held) => held.show(rt, style),
            (Style::Case, None) => print!(rt; " ({hash} none)"),
            (Style::Case, Some(c)) => {
                print!(rt; " ({hash} {}/{})", c.name_table_index.0, c.bucket_index)
            }
        }
    }
}

// A name of a bucket, and the hash that is stored for it.
impl Show for BucketName {
    fn show(&self, rt: &impl Print, style: Style) -> io::Result<()> {
        match style {
            Style::Case => print!(rt; " name {} hash {}", self.name.0, self.hash),
            Style::Replay => numbers(rt, &[self.name.0 as u64, self.hash as u64]),
        }
    }
}

// A name that a lookup by hash gave.
#[derive(Clone, Copy)]
pub struct Named(pub NameTableIndex);

impl Show for Named {
    fn show(&self, rt: &impl Print, style: Style) -> io::Result<()> {
        style.word(rt, b" name", b"")?;
        self.0.show(rt, style)
    }
}

// Of an incomplete table the number of missed names, the smallest of their numbers, and the hash of that name.
impl Show for TableCheck {
    fn show(&self, rt: &impl Print, style: Style) -> io::Result<()> {
        match self {
            TableCheck::NoTable => style.word(rt, b" no table", b" none"),
            TableCheck::Complete => rt.write_all(b" complete"),
            TableCheck::Incomplete(i) => {
                print!(rt; " missed {}", i.missed)?;
                BucketName {
                    name: i.name,
                    hash: i.hash,
                }
                .show(rt, style)
            }
        }
    }
}

// A record: the offsets of the index and of the entry, the name's number, the tag, the unit's kind and value, and the DIE offset with its flag;
// in the replay the flag comes first.
impl Show for Record {
    fn show(&self, rt: &impl Print, style: Style) -> io::Result<()> {
        style.word(rt, b" [", b" ")?;
        print!(rt;
            "{} {} {} {} {} {}",
            self.index_offset,
            self.entry_offset,
            self.name.0,
            self.tag,
            self.unit_kind,
            self.unit_value
        )?;
        let (die, has) = (self.die_offset.0, self.has_die_offset);
        match style {
            Style::Case => print!(rt; " {die} {has}]"),
            Style::Replay => print!(rt; " {has} {die}"),
        }
    }
}
