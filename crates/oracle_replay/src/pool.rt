// The entry pool of an index: the series of each name, and the entry at each offset with its five facts.
use crate::tally::{Tally, steps};
use crate::units::asked;
use entries::{compile_unit, die_offset, name_entries, name_entry, parent, type_hash, type_unit};
use index::{NameIndex, fit};
use lent_records::Lent;
use names::name_count;
use reader::{NameEntryOffset, NameTableIndex};
use std::io;

// The series of each name, and of two numbers past the last; then the entry at each offset.
pub fn entries(rt: &impl Print, on: Lent, index: NameIndex, t: &mut Tally) -> io::Result<()> {
    for number in 0..asked(name_count(on.section, index)) {
        series(rt, on, index, number, t)?;
    }
    handles(rt, on, index, t)
}

// The cursor of a name, and its steps: no more than 12 up to the first that gives no entry, and one after it. Where the handles do not go so
// far, the facts of the entry come behind the step.
fn series(
    rt: &impl Print,
    on: Lent,
    index: NameIndex,
    number: u32,
    t: &mut Tally,
) -> io::Result<()> {
    let r = name_entries(on.order, on.section, index, NameTableIndex(number));
    t.line(rt, b"name_entries", number as u64, &r)?;
    let Ok(mut cursor) = r else {
        return Ok(());
    };
    steps(t, 12, 1, |t| {
        let step = cursor.next(on.order, on.section, index);
        let next = step.answer;
        cursor = step.cursor;
        let gave = t.step(rt, b"next", &next)?;
        if let Ok(Some(e)) = next
            && 21 < e.offset.0
        {
            facts(rt, on, index, e.offset, t)?;
        }
        Ok(gave)
    })
}

// The entry at each offset, and its facts. Of the refused ones only the first has lines for its facts.
fn handles(rt: &impl Print, on: Lent, index: NameIndex, t: &mut Tally) -> io::Result<()> {
    let mut refused = false;
    for at in 0..offsets(on, index) {
        let offset = NameEntryOffset(at);
        let r = name_entry(on.order, on.section, index, offset);
        t.line(
            rt,
            b"name_entry",
            at as u64,
            &r.map(|e| [e.abbrev_code, e.tag as u64]),
        )?;
        if r.is_ok() || !refused {
            facts(rt, on, index, offset, t)?;
        }
        refused |= r.is_err();
    }
    Ok(())
}

// How many offsets are asked for: those of the pool's bytes, its end, and one past it; of a pool of more than 20 bytes, up to 21.
fn offsets(on: Lent, index: NameIndex) -> usize {
    let Ok(p) = fit(on.section, index) else {
        return 0;
    };
    p.end
        .checked_sub(p.entry_pool)
        .map_or(0, |len| len.min(20) + 2)
}

// The five facts of the entry at an offset.
fn facts(
    rt: &impl Print,
    on: Lent,
    index: NameIndex,
    offset: NameEntryOffset,
    t: &mut Tally,
) -> io::Result<()> {
    let (order, s) = (on.order, on.section);
    let at = offset.0 as u64;
    t.line(
        rt,
        b"entry_compile_unit",
        at,
        &compile_unit(order, s, index, offset),
    )?;
    t.line(
        rt,
        b"entry_type_unit",
        at,
        &type_unit(order, s, index, offset),
    )?;
    t.line(rt, b"die_offset", at, &die_offset(order, s, index, offset))?;
    t.line(rt, b"parent", at, &parent(order, s, index, offset))?;
    t.line(rt, b"type_hash", at, &type_hash(order, s, index, offset))
}
