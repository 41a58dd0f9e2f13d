// The section query, for parts of .debug_str.
use crate::hash_table::hash_of;
use crate::tally::Tally;
use crate::units::asked;
use index::NameIndex;
use lent_records::Lent;
use names::{name_count, name_string};
use reader::NameTableIndex;
use records::Record;
use show::{Show, Style};
use std::io;
use strings::Str;

// The queries that the names of an index give rise to.
pub fn queries(rt: &impl Print, on: Lent, index: NameIndex, t: &mut Tally) -> io::Result<()> {
    for number in 0..asked(name_count(on.section, index)) {
        if let Ok(name) = name_string(
            on.order,
            on.section,
            on.strings,
            index,
            NameTableIndex(number),
        ) {
            of_name(rt, on, index, number, name, t)?;
        }
    }
    Ok(())
}

// The string of a name with its hash, or 0 where there is none, and with the hash of the name after it. For name 0 also the string with
// the zero byte behind it, and without its last byte.
fn of_name(
    rt: &impl Print,
    on: Lent,
    index: NameIndex,
    number: u32,
    name: Str,
    t: &mut Tally,
) -> io::Result<()> {
    let Str { start, len } = name;
    let hash = hash_of(on, index, number).unwrap_or(0);
    ask(rt, on, hash, start, len, t)?;
    if let Some(other) = hash_of(on, index, number.wrapping_add(1)) {
        ask(rt, on, other, start, len, t)?;
    }
    if number == 0 {
        ask(rt, on, hash, start, len.wrapping_add(1), t)?;
        if 0 < len {
            ask(rt, on, hash, start, len - 1, t)?;
        }
    }
    Ok(())
}

// The query for a part of .debug_str: the total or the refusal, and those of the four records that the query wrote.
pub fn ask(
    rt: &impl Print,
    on: Lent,
    hash: u32,
    start: usize,
    len: usize,
    t: &mut Tally,
) -> io::Result<()> {
    t.call_of(rt, b"query", hash as u64)?;
    print!(rt; " {start} {len}")?;
    let Some(name) = on.strings.get(start..).and_then(|rest| rest.get(..len)) else {
        return rt.write_all(b"\n");
    };
    let got = on.query(hash, name, 4);
    t.answer(rt, &got.answer)?;
    for (number, r) in got.recs.into_iter().enumerate() {
        record(rt, number as u64, r, t)?;
    }
    Ok(())
}

// A record. One that the query did not write has the kind of unit with which it was lent, and no entry has that.
fn record(rt: &impl Print, number: u64, r: Record, t: &mut Tally) -> io::Result<()> {
    if 3 < r.unit_kind {
        return Ok(());
    }
    t.call_of(rt, b"record", number)?;
    r.show(rt, Style::Replay)?;
    rt.write_all(b"\n")
}
