// The calls on an index, each by a letter (and a space, and its name):
//
//     C L F T  how many compile units, local, foreign and all type units    p  where its parts lie
//     B N      how many buckets and names                                   H  whether it has a hash table
//     c l f t  a unit of these lists by its number                          d  the default compile unit
//     n        a step over the names from a number on                       a  the abbreviation of a code
//     o s b    the string of a name: its offset, where it stands, its bytes
//     S Q      s and b with an empty .debug_str
use case_calls::index_of;
use case_lines::{Case, numbers_of};
use index::{NameIndex, fit};
use names::{
    NameTableIter, bucket_count, compile_unit, compile_unit_count, default_compile_unit,
    foreign_type_unit, foreign_type_unit_count, get_abbreviation, has_hash_table, local_type_unit,
    local_type_unit_count, name_count, name_string, name_string_offset, name_string_slice,
    type_unit, type_unit_count,
};
use reader::{Error, NameTableIndex};
use show::{Marked, Show, Style};
use std::io;

const STYLE: Style = Style::Case;

// What the calls are made on: the case, its section, its index, and the bytes of .debug_str that it lends.
#[derive(Clone, Copy)]
struct On<'a> {
    case: Case<'a>,
    section: &'a [u8],
    index: NameIndex,
    strings: &'a [u8],
}

// The calls of a line on its index: those that it names behind its strings, or every call, in the lists E to H.
pub fn calls(rt: &impl Print, case: Case, section: &[u8]) -> io::Result<()> {
    let mut bytes = [0; 512];
    let on = On {
        case,
        section,
        index: index_of(case, section),
        strings: case.bytes(4, &mut bytes),
    };
    if case.letter(0) == b'i' {
        return on.each(rt, case, 5);
    }
    for list in b'E'..=b'H' {
        on.each(rt, case.named(list), 1)?;
    }
    Ok(())
}

impl On<'_> {
    // The calls that stand in a list from a part on, up to the list's part 19.
    fn each(self, rt: &impl Print, list: Case, from: usize) -> io::Result<()> {
        for n in from..20 {
            self.one(rt, list.part(n))?;
        }
        Ok(())
    }

    // A call: its letter, a space, and its name, which has the number.
    fn one(self, rt: &impl Print, call: &[u8]) -> io::Result<()> {
        let [letter, _, name @ ..] = call else {
            return Ok(());
        };
        let number = numbers_of(name);
        rt.write_all(self.case.title())?;
        rt.write_all(b", ")?;
        rt.write_all(name)?;
        rt.write_all(b":")?;
        match *letter {
            b'c' | b'l' | b'f' | b't' | b'd' => self.unit(rt, *letter, number.get32(0))?,
            b'n' | b'o' | b's' | b'b' | b'S' | b'Q' => {
                self.name(rt, *letter, NameTableIndex(number.get32(0)))?
            }
            b'a' => get_abbreviation(self.section, self.index, number.get(0)).show(rt, STYLE)?,
            b'H' => has_hash_table(self.section, self.index).show(rt, STYLE)?,
            b'p' => fit(self.section, self.index).show(rt, STYLE)?,
            _ => self.count(rt, *letter)?,
        }
        rt.write_all(b"\n")
    }

    // A count of the index.
    fn count(self, rt: &impl Print, call: u8) -> io::Result<()> {
        let counted: fn(&[u8], NameIndex) -> Result<u32, Error> = match call {
            b'C' => compile_unit_count,
            b'L' => local_type_unit_count,
            b'F' => foreign_type_unit_count,
            b'T' => type_unit_count,
            b'B' => bucket_count,
            _ => name_count,
        };
        counted(self.section, self.index).show(rt, STYLE)
    }

    // A unit by its number, and the default one.
    // (A `match` on the letter: the calls have answers of other types each, so that a table of closures would be longer.)
    fn unit(self, rt: &impl Print, call: u8, number: u32) -> io::Result<()> {
        let (order, s, i) = (self.case.order(), self.section, self.index);
        match call {
            b'c' => compile_unit(order, s, i, number).show(rt, STYLE),
            b'l' => local_type_unit(order, s, i, number).show(rt, STYLE),
            b'f' => foreign_type_unit(order, s, i, number).show(rt, STYLE),
            b't' => type_unit(order, s, i, number).show(rt, STYLE),
            _ => default_compile_unit(order, s, i).show(rt, STYLE),
        }
    }

    // A step over the names from a number on, and a name's string.
    fn name(self, rt: &impl Print, call: u8, name: NameTableIndex) -> io::Result<()> {
        let (order, s, i, lent) = (self.case.order(), self.section, self.index, self.strings);
        let cursor = NameTableIter {
            name_table_index: name,
        };
        match call {
            b'n' => cursor.next(s, i).show(rt, STYLE),
            b'o' => name_string_offset(order, s, i, name).show(rt, STYLE),
            b's' => name_string(order, s, lent, i, name).show(rt, STYLE),
            b'S' => name_string(order, s, b"", i, name).show(rt, STYLE),
            b'b' => Marked(name_string_slice(order, s, lent, i, name)).show(rt, STYLE),
            _ => Marked(name_string_slice(order, s, b"", i, name)).show(rt, STYLE),
        }
    }
}
