// What a query answers, and what it has to write: all records are counted, which meets every refusal. It is lent nothing; `query` stands on
// it, and writes.
//
// What is counted first is kept, the first record and the cursor after it: so a query with one record reads nothing twice, and the walk
// that writes begins with the first record and ends with the last that there is room for.
// (order, section, strings, hash, name) stay parameters: with a struct that lends slices, contracts are no plainer (docs/DECISIONS.md).
#![tactic(auto)]

ghost use Rattle.std.specs.Prelude.{◌≡◌, ◌+◌, ◌<◌, ◌^◌};
ghost use Rattle.reader.specs.Answers.{outcome};
ghost use Rattle.reader.specs.Listing.{counted, items};
ghost use Rattle.section_records.specs.Inner.{query_left};
ghost use Rattle.index.specs.Layout.{parts};
ghost use Rattle.index.specs.Inner.{PartsFit};
ghost use Rattle.query_plan.specs.Inner.{planned, writing_left, plan_outcome, write_left, nothing_to_write, Ready};

use reader::{Error, RunTimeEndian, too_long};
use records::Record;
use section_records::{QueryIter, first_record};

// What there is to write: how many records are left, the first of all if it is still to be written, and the cursor after it or after the last
// that was written.
#[derive(Clone, Copy)]
pub struct Writing {
    pub left: u64,
    pub first: Option<Record>,
    pub cursor: QueryIter,
}

// What the query answers, and what there is to write: where it refuses, that is nothing, so that one loop writes. (No `Result`: a refusal has a
// writing too.)
#[derive(Clone, Copy)]
pub struct Plan {
    pub answer: Result<u64, Error>,
    pub writing: Writing,
}

// How many records there are from a cursor on.
#[tactic(auto, using(reader::proofs::ListingLaws::plus_none, crate::proofs::PlanLaws::one_more, crate::proofs::PlanLaws::all_counted, crate::proofs::PlanLaws::not_counted, crate::proofs::PlanLaws::one_item))]
fn count_from(
    from: QueryIter,
    order: RunTimeEndian,
    section: &[u8],
    strings: &[u8],
    hash: u32,
    name: &[u8],
) -> Result<u64, Error>
    requires { (items (query_left order section.now strings.now hash name.now from) < 2 ^ 64) × PartsFit section.now (parts from.index) }
    ensures { outcome result ≡ counted (query_left order section.now strings.now hash name.now from) }
{
    let mut cursor = from;
    let mut count: u64 = 0;
    while cursor.next(order, section, strings, hash, name)?.is_some() {
        count += 1;
    }
    Ok(count)
}

// Nothing to write. (An answer alone is no plan, so no `From`.)
fn nothing(answer: Result<u64, Error>) -> Plan
    ensures { result ≡ nothing_to_write answer }
{
    Plan {
        answer,
        writing: Writing {
            left: 0,
            first: None,
            cursor: first_record(),
        },
    }
}

// Counts the records of the section, and keeps the first.
#[tactic(auto, unfolding(crate::specs::Inner::writing_left), using(crate::proofs::PlanLaws::planned_by, crate::proofs::PlanLaws::queried_ended, crate::proofs::PlanLaws::queried_broken, crate::proofs::PlanLaws::queried_item, section_records::proofs::WalkLaws::first_fits))]
pub fn plan_query(
    order: RunTimeEndian,
    section: &[u8],
    strings: &[u8],
    hash: u32,
    name: &[u8],
) -> Plan
    ensures plan { plan_outcome order section.now strings.now hash name.now result ≡ planned order section.now strings.now hash name.now }
    ensures ready { Ready section.now result.writing }
{
    if too_long(section) {
        return nothing(Err(Error::SectionTooLong));
    }
    if too_long(strings) {
        return nothing(Err(Error::SectionTooLong));
    }
    let mut cursor = first_record();
    match cursor.next(order, section, strings, hash, name) {
        Ok(Some(first)) => match count_from(cursor, order, section, strings, hash, name) {
            Ok(more) => Plan {
                answer: Ok(more + 1),
                writing: Writing {
                    left: more + 1,
                    first: Some(first),
                    cursor,
                },
            },
            Err(e) => nothing(Err(e)),
        },
        Ok(None) => nothing(Ok(0)),
        Err(e) => nothing(Err(e)),
    }
}

impl Writing {
    // The next record to write.
    #[tactic(auto, using(crate::proofs::PlanLaws::take_none, crate::proofs::PlanLaws::take_first), unfolding(crate::specs::Inner::writing_left, reader::specs::Listing::items_of))]
    pub fn next(
        &mut self,
        order: RunTimeEndian,
        section: &[u8],
        strings: &[u8],
        hash: u32,
        name: &[u8],
    ) -> Option<Record>
        requires { Ready section.now self.old }
        ensures left { write_left result (writing_left order section.now strings.now hash name.now self.new) ≡ writing_left order section.now strings.now hash name.now self.old }
        ensures ready { Ready section.now self.new }
    {
        if self.left == 0 {
            return None;
        }
        self.left -= 1;
        if let Some(first) = self.first.take() {
            return Some(first);
        }
        self.cursor
            .next(order, section, strings, hash, name)
            .unwrap_or(None)
    }
}
