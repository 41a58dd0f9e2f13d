// What is handed over to C, C++ and Rust: answers of one number, as structs of plain numbers by value. An answer has a status, which is 0 or
// the number of the refusal (SPECIFICATION 2.1), a kind, which says what is answered, and a value, which is the answer's number or the one value that
// the refusal carries. The kinds of units are those of a record (SPECIFICATION 15.4).
//
// Status and kind are plain numbers, since the structs cross to C.
#![tactic(auto)]

ghost use Rattle.std.specs.Prelude.{◌≡◌, MatchResult};
ghost use Rattle.std.specs.Result.{ForOk};
ghost use Rattle.reader.specs.Errors.{number_of, value_of};
ghost use Rattle.reader.specs.Answers.{outcome};
ghost use Rattle.answers.specs.Answers.{given, refused_answer, handed, open_answer, count_answer, flag_answer, unit_answer, signature_answer, type_unit_answer, default_unit_answer, str_offset_answer, bucket_answer, entries_answer};

use entries::NameEntryIter;
use hashes::NameBucketIter;
use index::Parts;
use names::NameTypeUnit;
use reader::{DebugInfoOffset, DebugStrOffset, DebugTypeSignature, Error};

// An answer: status 0, what is answered, and its number; or the refusal's number, kind 0, and its value.
#[repr(C)]
#[derive(Clone, Copy, Default)]
pub struct DebugNamesAnswer {
    pub status: u32,
    pub kind: u32,
    pub value: u64,
}

impl From<Error> for DebugNamesAnswer {
    ghost from_gives = { λ e answer. answer ≡ refused_answer (number_of e) (value_of e) };

    // A refusal.
    fn from(e: Error) -> DebugNamesAnswer {
        DebugNamesAnswer {
            status: e.number() as u32,
            kind: 0,
            value: e.value(),
        }
    }
}

impl DebugNamesAnswer {
    // What is answered, by its kind and its number.
    // (From two values, so no `From`.)
    pub fn given(kind: u32, value: u64) -> DebugNamesAnswer
        ensures { result ≡ given kind value }
    {
        DebugNamesAnswer {
            status: 0,
            kind,
            value,
        }
    }

    // What is answered, as `shown` shows it, or a refusal.
    pub fn handed<T, F: FnOnce(T) -> DebugNamesAnswer>(
        r: Result<T, Error>,
        shown: F,
    ) -> DebugNamesAnswer
        requires { ForOk r (F.pre shown) }
        ensures { MatchResult r (λ a. F.post shown a result) (λ e. result ≡ refused_answer (number_of e) (value_of e)) }
    {
        match r {
            Ok(a) => shown(a),
            Err(e) => DebugNamesAnswer::from(e),
        }
    }
}

// An index was opened.
pub fn open_answer(r: Result<Parts, Error>) -> DebugNamesAnswer
    ensures { result ≡ handed open_answer (outcome r) }
{
    DebugNamesAnswer::handed(r, |_| DebugNamesAnswer::given(1, 0))
}

// A count.
pub fn count_answer(r: Result<u32, Error>) -> DebugNamesAnswer
    ensures { result ≡ handed count_answer (outcome r) }
{
    DebugNamesAnswer::handed(r, |n| DebugNamesAnswer::given(1, n as u64))
}

// Whether something is so: 1 or 0. (Written out, so that it stands here which is 1.)
pub fn flag_answer(r: Result<bool, Error>) -> DebugNamesAnswer
    ensures { result ≡ handed flag_answer (outcome r) }
{
    DebugNamesAnswer::handed(r, |b| DebugNamesAnswer::given(1, if b { 1 } else { 0 }))
}

// A unit of .debug_info, of that kind: 1 for a compile unit, 2 for a local type unit.
pub fn unit_answer(kind: u32, r: Result<DebugInfoOffset, Error>) -> DebugNamesAnswer
    ensures { result ≡ handed (unit_answer kind) (outcome r) }
{
    DebugNamesAnswer::handed(r, |u| DebugNamesAnswer::given(kind, u.0 as u64))
}

// A foreign type unit.
pub fn signature_answer(r: Result<DebugTypeSignature, Error>) -> DebugNamesAnswer
    ensures { result ≡ handed signature_answer (outcome r) }
{
    DebugNamesAnswer::handed(r, |t| DebugNamesAnswer::given(3, t.0))
}

impl From<NameTypeUnit> for DebugNamesAnswer {
    ghost from_gives = { λ unit answer. answer ≡ type_unit_answer unit };

    // A type unit, local or foreign.
    fn from(unit: NameTypeUnit) -> DebugNamesAnswer {
        match unit {
            NameTypeUnit::Local(u) => DebugNamesAnswer::given(2, u.0 as u64),
            NameTypeUnit::Foreign(t) => DebugNamesAnswer::given(3, t.0),
        }
    }
}

// A type unit, local or foreign.
pub fn type_unit_answer(r: Result<NameTypeUnit, Error>) -> DebugNamesAnswer
    ensures { result ≡ handed type_unit_answer (outcome r) }
{
    DebugNamesAnswer::handed(r, |unit| DebugNamesAnswer::from(unit))
}

// The default compile unit, or none.
pub fn default_unit_answer(r: Result<Option<DebugInfoOffset>, Error>) -> DebugNamesAnswer
    ensures { result ≡ handed default_unit_answer (outcome r) }
{
    DebugNamesAnswer::handed(r, |unit| match unit {
        Some(u) => DebugNamesAnswer::given(1, u.0 as u64),
        None => DebugNamesAnswer::default(),
    })
}

// An offset of .debug_str.
pub fn str_offset_answer(r: Result<DebugStrOffset, Error>) -> DebugNamesAnswer
    ensures { result ≡ handed str_offset_answer (outcome r) }
{
    DebugNamesAnswer::handed(r, |o| DebugNamesAnswer::given(1, o.0 as u64))
}

// The first name of a bucket, or none.
pub fn bucket_answer(r: Result<Option<NameBucketIter>, Error>) -> DebugNamesAnswer
    ensures { result ≡ handed bucket_answer (outcome r) }
{
    DebugNamesAnswer::handed(r, |found| match found {
        Some(c) => DebugNamesAnswer::given(1, c.name_table_index.0 as u64),
        None => DebugNamesAnswer::default(),
    })
}

// The place of a name's first entry.
pub fn entries_answer(r: Result<NameEntryIter, Error>) -> DebugNamesAnswer
    ensures { result ≡ handed entries_answer (outcome r) }
{
    DebugNamesAnswer::handed(r, |c| DebugNamesAnswer::given(1, c.at as u64))
}

// How many records there are. (`count_answer` of 64 bits: over a type parameter the contract would have to say what number it is, and be no plainer.)
pub fn total_answer(r: Result<u64, Error>) -> DebugNamesAnswer
    ensures { result ≡ handed count_answer (outcome r) }
{
    DebugNamesAnswer::handed(r, |n| DebugNamesAnswer::given(1, n))
}
