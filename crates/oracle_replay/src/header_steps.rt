// Header steps from the start of a section up to the end, and all calls on the index of each header.
use crate::tally::Tally;
use crate::{hash_table, name_strings, pool, queries, table, units};
use headers::{DebugNames, NameIndexHeader, NameIndexHeaderIter};
use index::NameIndex;
use lent_records::Lent;
use show::{Show, Style};
use std::io;

// Steps up to the section's end, and the step there, which says end. After a refusal the cursor must be there too. A header has bytes, so that
// there are no more headers than bytes.
pub fn headers(rt: &impl Print, on: Lent, t: &mut Tally) -> io::Result<()> {
    let mut cursor = DebugNames::headers();
    for _ in on.section {
        if on.section.len() <= cursor.at {
            break;
        }
        step(rt, on, &mut cursor, t)?;
    }
    step(rt, on, &mut cursor, t)
}

// A step. A refused one counts as one of a header, although its line has no such word.
fn step(
    rt: &impl Print,
    on: Lent,
    cursor: &mut NameIndexHeaderIter,
    t: &mut Tally,
) -> io::Result<()> {
    let step = cursor.next(on.order, on.section);
    *cursor = step.cursor;
    match step.answer {
        Ok(Some(h)) => {
            t.call(rt, b"header")?;
            h.show(rt, Style::Replay)?;
            rt.write_all(b"\n")?;
            open(rt, on, h, t)
        }
        Ok(None) => {
            t.call(rt, b"end")?;
            rt.write_all(b"\n")
        }
        Err(e) => {
            t.count(b"header");
            t.count_refusal(e);
            println!(rt; "refused {} {}", e.number(), e.value())
        }
    }
}

// The index of a header, and all calls on it.
fn open(rt: &impl Print, on: Lent, h: NameIndexHeader, t: &mut Tally) -> io::Result<()> {
    t.call(rt, b"index")?;
    let opened = NameIndex::new(on.section, h);
    match opened {
        Ok(i) => {
            rt.write_all(b"\n")?;
            units::units(rt, on, i, t)?;
            name_strings::strings(rt, on, i, t)?;
            table::abbreviations(rt, on.section, i, t)?;
            hash_table::hash_table(rt, on, i, t)?;
            pool::entries(rt, on, i, t)?;
            queries::queries(rt, on, i, t)
        }
        Err(_) => t.answer(rt, &opened),
    }
}
