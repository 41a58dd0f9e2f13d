// Document 01's cases for entries, series and the facts of an entry. The file stdin beside src/ has the cases, one on each line, with what their
// letters and parts are; the file stdout has what document 01 says, worked out by hand.
#![tactic(auto)]

use case_lines::{Case, Numbers};
use entries::{
    NameEntryIter, compile_unit, die_offset, name_entries, name_entry, parent, type_hash, type_unit,
};
use index::NameIndex;
use reader::{NameEntryOffset, NameTableIndex};
use show::{Show, Style};
use standard_input::read_full;
use std::io;

// What the calls of a case are made on.
#[derive(Clone, Copy)]
struct On<'a> {
    case: Case<'a>,
    section: &'a [u8],
    index: NameIndex,
}

fn main(rt: HostRuntime) -> io::Result<()> {
    let mut text = [0; 65536];
    let len = read_full(&rt, &mut text)?;
    case_lines::each(&text[..len], |case| one(&rt, case))
}

// A case: its section, with the bytes that it changes, and its index.
fn one(rt: &impl Print, case: Case) -> io::Result<()> {
    let mut bytes = [0; 512];
    let section = case.changed(1, 3, &mut bytes);
    let on = On {
        case,
        section,
        index: case_calls::index_of(case, section),
    };
    on.asked(rt, case.numbers(4))
}

impl On<'_> {
    // What is asked for each of the numbers; of a series two of them are the name and how many steps there are.
    fn asked(self, rt: &impl Print, numbers: Numbers) -> io::Result<()> {
        if self.case.letter(0) == b'e' {
            for pair in numbers.values.chunks_exact(2) {
                if let [Some(name), Some(steps)] = pair {
                    self.series(rt, NameTableIndex((name % 4294967296) as u32), *steps)?;
                }
            }
            return Ok(());
        }
        for number in numbers.values.iter().flatten() {
            let at = *number as usize;
            match self.case.letter(0) {
                b's' => {
                    self.step(rt, NameEntryIter { at })?;
                }
                b'x' => self.entry(rt, NameEntryOffset(at))?,
                _ => {
                    self.entry(rt, NameEntryOffset(at))?;
                    self.facts(rt, NameEntryOffset(at))?;
                }
            }
        }
        Ok(())
    }

    // A line: the name of the case, the call and its number, and the answer.
    fn line(
        self,
        rt: &impl Print,
        call: &[u8],
        number: usize,
        answer: &impl Show,
    ) -> io::Result<()> {
        rt.write_all(self.case.title())?;
        rt.write_all(call)?;
        print!(rt; " {number}:")?;
        answer.show(rt, Style::Case)?;
        rt.write_all(b"\n")
    }

    // The series of a name: the place of its cursor, and then so many steps, each with the cursor that the one before it left.
    fn series(self, rt: &impl Print, name: NameTableIndex, steps: u64) -> io::Result<()> {
        let r = name_entries(self.case.order(), self.section, self.index, name);
        self.line(rt, b", name_entries", name.0 as usize, &r)?;
        if let Ok(first) = r {
            let mut cursor = first;
            for _ in 0..steps {
                cursor = self.step(rt, cursor)?;
            }
        }
        Ok(())
    }

    // A step, and the cursor after it, which is handed back.
    fn step(self, rt: &impl Print, cursor: NameEntryIter) -> io::Result<NameEntryIter> {
        let step = cursor.next(self.case.order(), self.section, self.index);
        self.line(rt, b", step from", cursor.at, &step)?;
        Ok(step.cursor)
    }

    // The entry at an offset.
    fn entry(self, rt: &impl Print, offset: NameEntryOffset) -> io::Result<()> {
        let entry = name_entry(self.case.order(), self.section, self.index, offset);
        self.line(rt, b", name_entry", offset.0, &entry)
    }

    // Its five facts.
    fn facts(self, rt: &impl Print, offset: NameEntryOffset) -> io::Result<()> {
        let (order, s, i, at) = (self.case.order(), self.section, self.index, offset.0);
        self.line(
            rt,
            b", compile_unit",
            at,
            &compile_unit(order, s, i, offset),
        )?;
        self.line(rt, b", type_unit", at, &type_unit(order, s, i, offset))?;
        self.line(rt, b", die_offset", at, &die_offset(order, s, i, offset))?;
        self.line(rt, b", parent", at, &parent(order, s, i, offset))?;
        self.line(rt, b", type_hash", at, &type_hash(order, s, i, offset))
    }
}
