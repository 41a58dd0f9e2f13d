// The calls of the crates `hashes` and `tables` (SPECIFICATION 10 and 11), a line for each lookup and for the table check. A
// lookup's line has its cursor, and for each step the answer and the cursor after it.
use case_lines::Numbers;
use hashes::{NameBucketIter, NameHashIter, find_by_bucket, find_by_hash};
use index::NameIndex;
use reader::{NameTableIndex, RunTimeEndian, Step};
use show::{Named, Show, Style, next};
use std::io;
use tables::check_table;

const STYLE: Style = Style::Case;

// What the calls of a case are made on.
#[derive(Clone, Copy)]
pub struct On<'a> {
    pub order: RunTimeEndian,
    pub section: &'a [u8],
    pub index: NameIndex,
}

impl On<'_> {
    // The buckets from 0 on, two more than there are, the hashes that are asked for, and the check.
    pub fn lookups(self, rt: &impl Print, buckets: u32, asked: Numbers) -> io::Result<()> {
        for bucket in 0..buckets.saturating_add(2) {
            self.by_bucket(rt, bucket)?;
        }
        for hash in asked.values.iter().flatten() {
            self.by_hash(rt, (hash % 4294967296) as u32)?;
        }
        rt.write_all(b"check:")?;
        check_table(self.order, self.section, self.index).show(rt, STYLE)?;
        rt.write_all(b"\n")
    }

    // The names of a bucket.
    fn by_bucket(self, rt: &impl Print, bucket: u32) -> io::Result<()> {
        print!(rt; "bucket {bucket}:")?;
        let r = find_by_bucket(self.order, self.section, self.index, bucket);
        match r {
            Ok(Some(cursor)) => {
                rt.write_all(b" ok")?;
                self.in_bucket(rt, cursor)
            }
            _ => without_cursor(rt, &r),
        }
    }

    // The names that store a hash.
    fn by_hash(self, rt: &impl Print, hash: u32) -> io::Result<()> {
        print!(rt; "hash {hash}:")?;
        let r = find_by_hash(self.order, self.section, self.index, hash);
        match r {
            Ok(cursor) => {
                rt.write_all(b" ok")?;
                self.of_hash(rt, cursor)
            }
            _ => without_cursor(rt, &r),
        }
    }

    // Cursors that no lookup gave, three numbers for each: a name number, a bucket and a hash.
    pub fn cursors(self, rt: &impl Print, given: Numbers) -> io::Result<()> {
        for numbers in given.values.chunks_exact(3) {
            if let [Some(name), Some(bucket), Some(hash)] = numbers {
                self.made(
                    rt,
                    (name % 4294967296) as u32,
                    (bucket % 4294967296) as u32,
                    (hash % 4294967296) as u32,
                )?;
            }
        }
        Ok(())
    }

    // A bucket cursor, the hash cursor that holds it, and the hash cursor that holds none.
    fn made(self, rt: &impl Print, name: u32, bucket_index: u32, hash: u32) -> io::Result<()> {
        let cursor = NameBucketIter {
            name_table_index: NameTableIndex(name),
            bucket_index,
        };
        rt.write_all(b"cursor:")?;
        self.in_bucket(rt, cursor)?;
        for bucket_iter in [Some(cursor), None] {
            rt.write_all(b"cursor:")?;
            self.of_hash(rt, NameHashIter { bucket_iter, hash })?;
        }
        Ok(())
    }

    // The steps from a cursor of a bucket, and from one of a hash.
    fn in_bucket(self, rt: &impl Print, from: NameBucketIter) -> io::Result<()> {
        let On {
            order,
            section,
            index,
        } = self;
        steps(
            rt,
            from,
            self.most(),
            |c: NameBucketIter| c.next(order, section, index),
        )
    }

    fn of_hash(self, rt: &impl Print, from: NameHashIter) -> io::Result<()> {
        let On {
            order,
            section,
            index,
        } = self;
        steps(rt, from, self.most(), |c: NameHashIter| {
            let step = c.next(order, section, index);
            Step {
                answer: step.answer.map(|found| found.map(Named)),
                cursor: step.cursor,
            }
        })
    }

    // How many steps are made: three more than there are names.
    fn most(self) -> usize {
        self.index.name_count as usize + 3
    }
}

// What a lookup says that gives no cursor.
fn without_cursor(rt: &impl Print, answer: &impl Show) -> io::Result<()> {
    answer.show(rt, STYLE)?;
    rt.write_all(b"\n")
}

// The steps from a cursor up to the second that says end or refuses, at most so many: so the line shows whether a step after an end stays there or
// goes on.
fn steps<T: Show + Copy, C: Show + Copy, F: Fn(C) -> Step<T, C> + Drop>(
    rt: &impl Print,
    from: C,
    most: usize,
    step: F,
) -> io::Result<()>
    requires { F.IsAlwaysCallable step }
{
    let mut cursor = from;
    let mut ended = false;
    cursor.show(rt, STYLE)?;
    for _ in 0..most {
        let after = step(cursor);
        cursor = after.cursor;
        next(rt, STYLE, &after.answer)?;
        cursor.show(rt, STYLE)?;
        let over = !matches!(after.answer, Ok(Some(_)));
        if over && ended {
            break;
        }
        ended |= over;
    }
    rt.write_all(b"\n")
}
