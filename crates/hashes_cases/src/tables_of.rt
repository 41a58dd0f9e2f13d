// Tables that a line describes by their numbers.
use crate::calls::On;
use case_lines::{Bytes, Case, Numbers};
use index::NameIndex;
use reader::{Format, RunTimeEndian};
use std::io;

// A line and its answers.
pub fn table(rt: &impl Print, case: Case) -> io::Result<()> {
    let mut bytes = [0; 512];
    let order = match case.letter(0) {
        b'B' => RunTimeEndian::Big,
        _ => RunTimeEndian::Little,
    };
    let (starts, hashes) = (case.numbers(1), case.numbers(2));
    let section = written(order, case.format(1), starts, hashes, &mut bytes);
    let on = On {
        order,
        section,
        index: index_of(
            case.format(1),
            starts.count() as u32,
            hashes.count() as u32,
            section.len(),
            case.numbers(5),
        ),
    };
    rt.write_all(case.line())?;
    rt.write_all(b"\n")?;
    on.lookups(rt, starts.count() as u32, case.numbers(3))?;
    on.cursors(rt, case.numbers(4))
}

// The section of a table: 4 bytes for each start, and for each name 4 of its hash and two words, which are 0.
fn written<'a>(
    order: RunTimeEndian,
    format: Format,
    starts: Numbers,
    hashes: Numbers,
    to: &'a mut Bytes,
) -> &'a [u8] {
    let (words, _) = to.as_chunks_mut::<4>();
    let numbers = starts.values.iter().chain(&hashes.values).flatten();
    for (word, number) in words.iter_mut().zip(numbers) {
        let number = (number % 4294967296) as u32;
        *word = match order {
            RunTimeEndian::Little => number.to_le_bytes(),
            RunTimeEndian::Big => number.to_be_bytes(),
        };
    }
    let name = 4 + 2 * (format.word_size() as usize);
    to.get(..4 * starts.count() + name * hashes.count())
        .unwrap_or(b"")
}

// The index of the numbers begin, end, C, L, F, B, N and A; where there are none, that of a whole section with starts, hashes, strings and entry
// offsets and nothing else.
fn index_of(format: Format, buckets: u32, names: u32, end: usize, given: Numbers) -> NameIndex {
    if given.count() == 0 {
        return NameIndex {
            format,
            bucket_count: buckets,
            name_count: names,
            end,
            ..NameIndex::default()
        };
    }
    NameIndex {
        format,
        compile_unit_count: given.get32(2),
        local_type_unit_count: given.get32(3),
        foreign_type_unit_count: given.get32(4),
        bucket_count: given.get32(5),
        name_count: given.get32(6),
        abbrev_table_size: given.get32(7),
        begin: given.get(0) as usize,
        end: given.get(1) as usize,
    }
}
