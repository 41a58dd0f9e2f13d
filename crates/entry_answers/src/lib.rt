// Entries and their facts, as they are handed over to C, C++ and Rust. The five facts are answers of their own: each may be refused while the
// entry is not (SPECIFICATION 15.5).
//
// Status and kind are plain numbers, since the structs cross to C.
// (order, section, index) stay parameters: with a struct that lends the section, contracts are no plainer (docs/DECISIONS.md).
#![tactic(auto)]

ghost use Rattle.std.specs.Prelude.{◌≡◌};
ghost use Rattle.reader.specs.Errors.{number_of, value_of};
ghost use Rattle.answers.specs.Answers.{handed};
ghost use Rattle.reader.specs.Answers.{outcome};
ghost use Rattle.entries.specs.Inner.{less_whole};
ghost use Rattle.entry_answers.specs.Entry.{compile_unit_fact, type_unit_fact, die_offset_fact, parent_fact, type_hash_fact, shown_entry, refused_entry, entry_answer, entry_step_answer};
ghost use Rattle.entry_answers.specs.Inner.{facts_of};

use answers::DebugNamesAnswer;
use attributes::{EntryParent, Facts};
use entries::{EntryAt, NameEntryIter, whole_entry};
use index::{NameIndex, Parts, fit};
use names::NameTypeUnit;
use reader::{DebugInfoOffset, Error, NameEntryOffset, RunTimeEndian, UnitOffset};

// The five facts of an entry, each with kind 0 where no attribute states it.
// (Its five answers cross to C, where `Facts` of `attributes` holds the attributes themselves.)
#[repr(C)]
#[derive(Clone, Copy, Default)]
pub struct DebugNamesFacts {
    pub compile_unit: DebugNamesAnswer,
    pub type_unit: DebugNamesAnswer,
    pub die_offset: DebugNamesAnswer,
    pub parent: DebugNamesAnswer,
    pub type_hash: DebugNamesAnswer,
}

// An entry: kind 0 is the end of a series; 1 is an entry, whose handle is `value`. `next` is the cursor after the step.
#[repr(C)]
#[derive(Clone, Copy, Default)]
pub struct DebugNamesEntry {
    pub status: u32,
    pub kind: u32,
    pub value: u64,
    pub next: usize,
    pub abbrev_code: u64,
    pub facts: DebugNamesFacts,
    pub tag: u32,
}

// The compile unit that an entry names. (As `default_unit_answer` of `answers` shows a unit; each has a definition of its own, and one call of the other
// would be no plainer.)
fn compile_unit_fact(r: Result<Option<DebugInfoOffset>, Error>) -> DebugNamesAnswer
    ensures { result ≡ handed compile_unit_fact (outcome r) }
{
    DebugNamesAnswer::handed(r, |unit| match unit {
        Some(u) => DebugNamesAnswer::given(1, u.0 as u64),
        None => DebugNamesAnswer::default(),
    })
}

// The type unit that an entry names.
fn type_unit_fact(r: Result<Option<NameTypeUnit>, Error>) -> DebugNamesAnswer
    ensures { result ≡ handed type_unit_fact (outcome r) }
{
    DebugNamesAnswer::handed(r, |unit| match unit {
        Some(u) => DebugNamesAnswer::from(u),
        None => DebugNamesAnswer::default(),
    })
}

// The DIE offset.
fn die_offset_fact(r: Result<Option<UnitOffset>, Error>) -> DebugNamesAnswer
    ensures { result ≡ handed die_offset_fact (outcome r) }
{
    DebugNamesAnswer::handed(r, |die| match die {
        Some(offset) => DebugNamesAnswer::given(1, offset.0 as u64),
        None => DebugNamesAnswer::default(),
    })
}

// The parent: kind 0 not known, 1 the entry of that handle, 2 none.
fn parent_fact(r: Result<EntryParent, Error>) -> DebugNamesAnswer
    ensures { result ≡ handed parent_fact (outcome r) }
{
    DebugNamesAnswer::handed(r, |parent| match parent {
        EntryParent::NotKnown => DebugNamesAnswer::default(),
        EntryParent::Entry(offset) => DebugNamesAnswer::given(1, offset.0 as u64),
        EntryParent::NoParent => DebugNamesAnswer::given(2, 0),
    })
}

// The hash of the type.
fn type_hash_fact(r: Result<Option<u64>, Error>) -> DebugNamesAnswer
    ensures { result ≡ handed type_hash_fact (outcome r) }
{
    DebugNamesAnswer::handed(r, |hash| match hash {
        Some(h) => DebugNamesAnswer::given(1, h),
        None => DebugNamesAnswer::default(),
    })
}

// What the attributes that were kept of an entry say, in an index whose parts are `p`.
// (They depend on the section and the index, so no `From`; so does what is shown of an entry, below.)
#[tactic(auto, unfolding(crate::specs::Inner::facts_of))]
#[inline(always)]
fn facts_of(order: RunTimeEndian, section: &[u8], p: Parts, facts: Facts) -> DebugNamesFacts
    ensures { result ≡ facts_of order section.now p facts }
{
    let compile_unit = attributes::compile_unit(order, section, p, facts.compile_unit);
    let type_unit = attributes::type_unit(order, section, p, facts.type_unit);
    DebugNamesFacts {
        compile_unit: compile_unit_fact(compile_unit),
        type_unit: type_unit_fact(type_unit),
        die_offset: die_offset_fact(attributes::die_offset(facts.die_offset)),
        parent: parent_fact(attributes::parent(facts.parent)),
        type_hash: type_hash_fact(attributes::type_hash(facts.type_hash)),
    }
}

// A refused entry, with the cursor after it: its facts are refused as it is.
#[tactic(auto, unfolding(crate::specs::Entry::refused_entry, crate::specs::Entry::refused_facts))]
fn refused_entry(e: Error, next: usize) -> DebugNamesEntry
    ensures { result ≡ refused_entry next (number_of e) (value_of e) }
{
    let fact = DebugNamesAnswer::from(e);
    DebugNamesEntry {
        status: e.number() as u32,
        kind: 0,
        value: e.value(),
        next,
        abbrev_code: 0,
        facts: DebugNamesFacts {
            compile_unit: fact,
            type_unit: fact,
            die_offset: fact,
            parent: fact,
            type_hash: fact,
        },
        tag: 0,
    }
}

// An entry that was read whole, with its facts and the cursor after it, in an index whose parts are `p`.
#[inline(always)]
fn shown_entry(
    order: RunTimeEndian,
    section: &[u8],
    p: Parts,
    e: EntryAt,
    next: usize,
) -> DebugNamesEntry
    ensures { result ≡ shown_entry (facts_of order section.now p e.entry.facts) next (less_whole e) }
{
    DebugNamesEntry {
        status: 0,
        kind: 1,
        value: e.offset.0 as u64,
        next,
        abbrev_code: e.entry.abbrev_code,
        facts: facts_of(order, section, p, e.entry.facts),
        tag: e.entry.tag as u32,
    }
}

// The entry with a handle (SPECIFICATION 9.4). One test that the index fits serves the entry and its facts.
#[tactic(auto, using(crate::proofs::WholeLaws::entry_whole))]
#[inline(always)]
pub fn entry_answer(
    order: RunTimeEndian,
    section: &[u8],
    index: NameIndex,
    offset: NameEntryOffset,
) -> DebugNamesEntry
    ensures { result ≡ entry_answer order section.now index offset }
{
    let p = match fit(section, index) {
        Ok(p) => p,
        Err(e) => return refused_entry(e, 0),
    };
    match whole_entry(order, section, p, offset) {
        Ok(entry) => shown_entry(order, section, p, EntryAt { offset, entry }, 0),
        Err(e) => refused_entry(e, 0),
    }
}

// A step over entries from the cursor at a place (SPECIFICATION 9.6), with the cursor after it. That the
// index fits is tested once, for the step and the facts of its entry; where it does not fit, the cursor
// stays.
#[tactic(auto, using(crate::proofs::WholeLaws::step_whole), unfolding(crate::specs::Entry::no_facts))]
#[inline(always)]
pub fn entry_step_answer(
    order: RunTimeEndian,
    section: &[u8],
    index: NameIndex,
    at: usize,
) -> DebugNamesEntry
    ensures { result ≡ entry_step_answer order section.now index (record { at = at }) }
{
    let p = match fit(section, index) {
        Ok(p) => p,
        Err(e) => return refused_entry(e, at),
    };
    let step = NameEntryIter { at }.next_whole(order, section, p);
    let next = step.cursor.at;
    match step.answer {
        Ok(Some(e)) => shown_entry(order, section, p, e, next),
        Ok(None) => DebugNamesEntry {
            next,
            ..DebugNamesEntry::default()
        },
        Err(e) => refused_entry(e, next),
    }
}
