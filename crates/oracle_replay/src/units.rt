// How many units, buckets and names an index has, and its units by their numbers.
use crate::tally::Tally;
use index::NameIndex;
use lent_records::Lent;
use names::{
    bucket_count, compile_unit, compile_unit_count, default_compile_unit, foreign_type_unit,
    foreign_type_unit_count, has_hash_table, local_type_unit, local_type_unit_count, name_count,
    type_unit, type_unit_count,
};
use reader::Error;
use show::Show;
use std::io;

// The counts, and then the units.
pub fn units(rt: &impl Print, on: Lent, index: NameIndex, t: &mut Tally) -> io::Result<()> {
    let (order, s) = (on.order, on.section);
    counts(rt, s, index, t)?;
    list(rt, b"compile_unit", compile_unit_count(s, index), t, |n| {
        compile_unit(order, s, index, n)
    })?;
    list(
        rt,
        b"local_type_unit",
        local_type_unit_count(s, index),
        t,
        |n| { local_type_unit(order, s, index, n) },
    )?;
    list(
        rt,
        b"foreign_type_unit",
        foreign_type_unit_count(s, index),
        t,
        |n| { foreign_type_unit(order, s, index, n) },
    )?;
    list(rt, b"type_unit", type_unit_count(s, index), t, |n| {
        type_unit(order, s, index, n)
    })?;
    t.call(rt, b"default_compile_unit")?;
    t.answer(rt, &default_compile_unit(order, s, index))
}

// The counts, and whether there is a hash table, on one line.
fn counts(rt: &impl Print, s: &[u8], index: NameIndex, t: &mut Tally) -> io::Result<()> {
    t.call(rt, b"counts")?;
    t.shown(rt, &compile_unit_count(s, index))?;
    t.shown(rt, &local_type_unit_count(s, index))?;
    t.shown(rt, &foreign_type_unit_count(s, index))?;
    t.shown(rt, &type_unit_count(s, index))?;
    t.shown(rt, &bucket_count(s, index))?;
    t.shown(rt, &name_count(s, index))?;
    t.answer(rt, &has_hash_table(s, index))
}

// How many numbers of a list are asked for: those of the list, as far as there are no more than 40, and two past the last.
pub fn asked(r: Result<u32, Error>) -> u32 {
    r.map_or(0, |n| n.min(40) + 2)
}

// The units of a list, by their numbers.
fn list<T: Show + Drop, F: Fn(u32) -> Result<T, Error> + Drop>(
    rt: &impl Print,
    word: &[u8],
    count: Result<u32, Error>,
    t: &mut Tally,
    unit: F,
) -> io::Result<()>
    requires { F.IsAlwaysCallable unit }
{
    for number in 0..asked(count) {
        t.line(rt, word, number as u64, &unit(number))?;
    }
    Ok(())
}
