// Units, names and their offsets.
use crate::{Show, Style, numbers};
use names::{NameTableIter, NameTypeUnit};
use reader::{DebugInfoOffset, DebugStrOffset, DebugTypeSignature, NameTableIndex};
use std::io;

impl Show for DebugInfoOffset {
    fn show(&self, rt: &impl Print, _style: Style) -> io::Result<()> {
        numbers(rt, &[self.0 as u64])
    }
}

impl Show for DebugTypeSignature {
    fn show(&self, rt: &impl Print, _style: Style) -> io::Result<()> {
        numbers(rt, &[self.0])
    }
}

impl Show for NameTypeUnit {
    fn show(&self, rt: &impl Print, _style: Style) -> io::Result<()> {
        match self {
            NameTypeUnit::Local(o) => print!(rt; " local {}", o.0),
            NameTypeUnit::Foreign(t) => print!(rt; " foreign {}", t.0),
        }
    }
}

impl Show for DebugStrOffset {
    fn show(&self, rt: &impl Print, _style: Style) -> io::Result<()> {
        numbers(rt, &[self.0 as u64])
    }
}

impl Show for NameTableIndex {
    fn show(&self, rt: &impl Print, _style: Style) -> io::Result<()> {
        numbers(rt, &[self.0 as u64])
    }
}

// The name that the cursor gives next.
impl Show for NameTableIter {
    fn show(&self, rt: &impl Print, style: Style) -> io::Result<()> {
        self.name_table_index.show(rt, style)
    }
}
