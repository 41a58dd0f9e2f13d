// The names of an index, one after another, and the offset and the string of each.
use crate::tally::Tally;
use crate::units::asked;
use index::NameIndex;
use lent_records::Lent;
use names::{name_count, name_string, name_string_offset};
use reader::NameTableIndex;
use std::io;

// The numbers of the names on one line; then two lines for each name, and for two numbers past the last.
pub fn strings(rt: &impl Print, on: Lent, index: NameIndex, t: &mut Tally) -> io::Result<()> {
    t.call(rt, b"names")?;
    numbers(rt, on.section, index, t)?;
    rt.write_all(b"\n")?;
    for number in 0..asked(name_count(on.section, index)) {
        one(rt, on, index, number, t)?;
    }
    Ok(())
}

// Steps over the names, up to the end and at most 40.
fn numbers(rt: &impl Print, s: &[u8], index: NameIndex, t: &mut Tally) -> io::Result<()> {
    let mut cursor = names::names();
    for _ in 0..40 {
        let step = cursor.next(s, index);
        cursor = step.cursor;
        match step.answer {
            Ok(Some(name)) => print!(rt; " {}", name.0)?,
            Ok(None) => break,
            Err(_) => return t.answer(rt, &step.answer),
        }
    }
    Ok(())
}

// The offset and the string of a name.
fn one(rt: &impl Print, on: Lent, index: NameIndex, number: u32, t: &mut Tally) -> io::Result<()> {
    let name = NameTableIndex(number);
    let offset = name_string_offset(on.order, on.section, index, name);
    t.line(rt, b"string_offset", number as u64, &offset)?;
    let string = name_string(on.order, on.section, on.strings, index, name);
    t.line(rt, b"string", number as u64, &string)
}
