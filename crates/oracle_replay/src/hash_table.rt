// The hash table of an index: the names of each bucket, the names that store a hash, and the table check.
use crate::tally::{Tally, steps};
use crate::units::asked;
use hashes::{find_by_bucket, find_by_hash};
use index::{NameIndex, fit};
use lent_records::Lent;
use names::bucket_count;
use reader::{read_number, skip};
use std::io;
use tables::check_table;

// No more steps than this are made of a cursor up to the first that gives no name; two more are made after that one.
const STEPS: u32 = 8;

// The buckets, and two numbers past the last; then the hashes, and the table check.
pub fn hash_table(rt: &impl Print, on: Lent, index: NameIndex, t: &mut Tally) -> io::Result<()> {
    for number in 0..asked(bucket_count(on.section, index)) {
        bucket(rt, on, index, number, t)?;
    }
    lookups(rt, on, index, t)?;
    t.call(rt, b"table")?;
    t.answer(rt, &check_table(on.order, on.section, index))
}

// The cursor of a bucket, and its steps.
fn bucket(
    rt: &impl Print,
    on: Lent,
    index: NameIndex,
    number: u32,
    t: &mut Tally,
) -> io::Result<()> {
    let r = find_by_bucket(on.order, on.section, index, number);
    t.line(rt, b"find_by_bucket", number as u64, &r)?;
    let Ok(Some(mut cursor)) = r else {
        return Ok(());
    };
    steps(t, STEPS, 2, |t| {
        let next = cursor.next(on.order, on.section, index);
        cursor = next.cursor;
        t.step(rt, b"next_in_bucket", &next.answer)
    })
}

// A lookup of each of the hashes that gimli was asked for: those of the first names, and others. Among them are the number of the last
// bucket, and the hash after the one that the first name stores.
fn lookups(rt: &impl Print, on: Lent, index: NameIndex, t: &mut Tally) -> io::Result<()> {
    for name in 0..6 {
        by_hash(rt, on, index, hash_of(on, index, name), t)?;
    }
    let last = bucket_count(on.section, index)
        .ok()
        .and_then(|count| count.checked_sub(1));
    let after = hash_of(on, index, 0).map(|hash| hash.wrapping_add(1));
    for hash in [Some(0), Some(1), last, Some(5381), Some(u32::MAX), after] {
        by_hash(rt, on, index, hash, t)?;
    }
    Ok(())
}

// The hash of a name, read from the part that holds the hashes; none where there is no such name or no table.
pub fn hash_of(on: Lent, index: NameIndex, name: u32) -> Option<u32> {
    let (order, s) = (on.order, on.section);
    let p = fit(s, index).ok()?;
    let place = skip(4 * (name as usize), s, p.hash_table_data, p.name_table_data).ok()?;
    let hash = read_number::<u32>(order, s, place, p.name_table_data).ok()?;
    Some(hash.value)
}

// The cursor of a hash, if there is one to ask for, and its steps.
fn by_hash(
    rt: &impl Print,
    on: Lent,
    index: NameIndex,
    hash: Option<u32>,
    t: &mut Tally,
) -> io::Result<()> {
    let Some(hash) = hash else {
        return Ok(());
    };
    let r = find_by_hash(on.order, on.section, index, hash);
    t.line(rt, b"find_by_hash", hash as u64, &r)?;
    let Ok(mut cursor) = r else {
        return Ok(());
    };
    steps(t, STEPS, 2, |t| {
        let next = cursor.next(on.order, on.section, index);
        cursor = next.cursor;
        t.step(rt, b"next_of_hash", &next.answer)
    })
}
