// Answers of more than one number, as they are handed over to C, C++ and Rust: headers, strings, the steps over buckets and hashes, each with
// the cursor after it, and the table check.
//
// Status and kind are plain numbers, since the structs cross to C.
#![tactic(auto)]

ghost use Rattle.std.specs.Prelude.{◌≡◌};
ghost use Rattle.reader.specs.Answers.{outcome};
ghost use Rattle.reader.specs.Steps.{step_of};
ghost use Rattle.step_answers.specs.Steps.{header_answer, header_facts, string_answer, bucket_step_answer, hash_answer, hash_step_answer, table_answer};

use handles::{DebugNamesHashCursor, DebugNamesIndex};
use hashes::{BucketName, NameBucketIter, NameHashIter};
use headers::{NameIndexHeader, NameIndexHeaderIter};
use reader::{Error, NameTableIndex, Step};
use strings::Str;
use tables::TableCheck;

// A step over the headers: kind 0 is the end; 1 is a header, at the place `value`, with the index that it describes.
#[repr(C)]
#[derive(Clone, Copy, Default)]
pub struct DebugNamesHeaderStep {
    pub status: u32,
    pub kind: u32,
    pub value: u64,
    pub next: usize,
    pub index: DebugNamesIndex,
}

// What else a header says: its length is `value`; without an augmentation string its place and length are 0.
#[repr(C)]
#[derive(Clone, Copy, Default)]
pub struct DebugNamesHeader {
    pub status: u32,
    pub kind: u32,
    pub value: u64,
    pub augmentation: usize,
    pub augmentation_len: usize,
    pub version: u32,
}

// Where a string stands: it begins at `value`.
#[repr(C)]
#[derive(Clone, Copy, Default)]
pub struct DebugNamesString {
    pub status: u32,
    pub kind: u32,
    pub value: u64,
    pub len: usize,
}

// A step over the names of a bucket: kind 0 is the end; 1 is the name of number `value`, with the hash that is stored for it.
#[repr(C)]
#[derive(Clone, Copy, Default)]
pub struct DebugNamesBucketStep {
    pub status: u32,
    pub kind: u32,
    pub value: u64,
    pub hash: u32,
    pub next: NameTableIndex,
}

// A lookup by hash, or a step of it: kind 0 is the end; 1 is the name of number `value`, and of the lookup itself 0.
#[repr(C)]
#[derive(Clone, Copy, Default)]
pub struct DebugNamesHashStep {
    pub status: u32,
    pub kind: u32,
    pub value: u64,
    pub next: DebugNamesHashCursor,
}

// What the table check says: kind 0 is no table; 1 is complete; 2 is incomplete, with the number of missed names in `value`, the smallest of
// their numbers, and the hash that is stored for that name.
#[repr(C)]
#[derive(Clone, Copy, Default)]
pub struct DebugNamesTable {
    pub status: u32,
    pub kind: u32,
    pub value: u64,
    pub name: NameTableIndex,
    pub hash: u32,
}

// A header step, with the cursor after it. (Each answer below fills a struct of its own where it refuses, since C knows one layout a call.)
#[tactic(auto, unfolding(handles::specs::Handles::no_handle))]
pub fn header_answer(step: Step<NameIndexHeader, NameIndexHeaderIter>) -> DebugNamesHeaderStep
    ensures { result ≡ header_answer (step_of step.answer step.cursor) }
{
    let next = step.cursor.at;
    match step.answer {
        Ok(Some(h)) => DebugNamesHeaderStep {
            status: 0,
            kind: 1,
            value: h.offset.0 as u64,
            next,
            index: DebugNamesIndex::from(h),
        },
        Ok(None) => DebugNamesHeaderStep {
            next,
            ..DebugNamesHeaderStep::default()
        },
        Err(e) => DebugNamesHeaderStep {
            status: e.number() as u32,
            value: e.value(),
            next,
            ..DebugNamesHeaderStep::default()
        },
    }
}

// What else the header of a step says.
pub fn header_facts(step: Result<Option<NameIndexHeader>, Error>) -> DebugNamesHeader
    ensures { result ≡ header_facts (outcome step) }
{
    match step {
        Ok(Some(h)) => {
            let (augmentation, augmentation_len) = match h.augmentation_string {
                Some(a) => (a.place, a.len),
                None => (0, 0),
            };
            DebugNamesHeader {
                status: 0,
                kind: 1,
                value: h.length as u64,
                augmentation,
                augmentation_len,
                version: h.version as u32,
            }
        }
        Ok(None) => DebugNamesHeader::default(),
        Err(e) => DebugNamesHeader {
            status: e.number() as u32,
            value: e.value(),
            ..DebugNamesHeader::default()
        },
    }
}

// A string.
pub fn string_answer(r: Result<Str, Error>) -> DebugNamesString
    ensures { result ≡ string_answer (outcome r) }
{
    match r {
        Ok(t) => DebugNamesString {
            status: 0,
            kind: 1,
            value: t.start as u64,
            len: t.len,
        },
        Err(e) => DebugNamesString {
            status: e.number() as u32,
            value: e.value(),
            ..DebugNamesString::default()
        },
    }
}

// A bucket step, with the cursor after it. The cursor's bucket is the caller's own.
pub fn bucket_step_answer(step: Step<BucketName, NameBucketIter>) -> DebugNamesBucketStep
    ensures { result ≡ bucket_step_answer (step_of step.answer step.cursor) }
{
    let next = step.cursor.name_table_index;
    match step.answer {
        Ok(Some(n)) => DebugNamesBucketStep {
            status: 0,
            kind: 1,
            value: n.name.0 as u64,
            hash: n.hash,
            next,
        },
        Ok(None) => DebugNamesBucketStep {
            next,
            ..DebugNamesBucketStep::default()
        },
        Err(e) => DebugNamesBucketStep {
            status: e.number() as u32,
            value: e.value(),
            next,
            ..DebugNamesBucketStep::default()
        },
    }
}

// A lookup by hash.
#[tactic(auto, unfolding(handles::specs::Handles::no_cursor))]
pub fn hash_answer(r: Result<NameHashIter, Error>) -> DebugNamesHashStep
    ensures { result ≡ hash_answer (outcome r) }
{
    match r {
        Ok(c) => DebugNamesHashStep {
            status: 0,
            kind: 1,
            value: 0,
            next: DebugNamesHashCursor::from(c),
        },
        Err(e) => DebugNamesHashStep {
            status: e.number() as u32,
            value: e.value(),
            ..DebugNamesHashStep::default()
        },
    }
}

// A hash step from a caller's cursor, with the cursor after it. A step is refused only with 13 and 14, which leave the cursor as it was: then it is
// the caller's, number by number.
pub fn hash_step_answer(
    from: DebugNamesHashCursor,
    step: Step<NameTableIndex, NameHashIter>,
) -> DebugNamesHashStep
    ensures { result ≡ hash_step_answer from (step_of step.answer step.cursor) }
{
    let next = DebugNamesHashCursor::from(step.cursor);
    match step.answer {
        Ok(Some(name)) => DebugNamesHashStep {
            status: 0,
            kind: 1,
            value: name.0 as u64,
            next,
        },
        Ok(None) => DebugNamesHashStep {
            next,
            ..DebugNamesHashStep::default()
        },
        Err(e) => DebugNamesHashStep {
            status: e.number() as u32,
            value: e.value(),
            next: from,
            ..DebugNamesHashStep::default()
        },
    }
}

// The table check.
pub fn table_answer(r: Result<TableCheck, Error>) -> DebugNamesTable
    ensures { result ≡ table_answer (outcome r) }
{
    match r {
        Ok(TableCheck::NoTable) => DebugNamesTable::default(),
        Ok(TableCheck::Complete) => DebugNamesTable {
            kind: 1,
            ..DebugNamesTable::default()
        },
        Ok(TableCheck::Incomplete(lost)) => DebugNamesTable {
            status: 0,
            kind: 2,
            value: lost.missed as u64,
            name: lost.name,
            hash: lost.hash,
        },
        Err(e) => DebugNamesTable {
            status: e.number() as u32,
            value: e.value(),
            ..DebugNamesTable::default()
        },
    }
}
