// Entries and what is told of them.
use crate::{Show, Style, numbers};
use attributes::EntryParent;
use entries::{NameEntry, NameEntryIter};
use reader::UnitOffset;
use std::io;

// An entry: its offset, its code and its tag.
impl Show for NameEntry {
    fn show(&self, rt: &impl Print, _style: Style) -> io::Result<()> {
        numbers(
            rt,
            &[self.offset.0 as u64, self.abbrev_code, self.tag as u64],
        )
    }
}

// The place of the next entry.
impl Show for NameEntryIter {
    fn show(&self, rt: &impl Print, style: Style) -> io::Result<()> {
        self.at.show(rt, style)
    }
}

impl Show for UnitOffset {
    fn show(&self, rt: &impl Print, _style: Style) -> io::Result<()> {
        numbers(rt, &[self.0 as u64])
    }
}

impl Show for EntryParent {
    fn show(&self, rt: &impl Print, style: Style) -> io::Result<()> {
        match self {
            EntryParent::Entry(o) => print!(rt; " entry {}", o.0),
            EntryParent::NoParent => style.word(rt, b" no parent", b" none"),
            EntryParent::NotKnown => style.word(rt, b" not known", b" -"),
        }
    }
}
