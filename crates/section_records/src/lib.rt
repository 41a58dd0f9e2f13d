// The records of a section, one after another (SPECIFICATION 12.2): those of its indexes in order, each index finished before
// the next header. The step over them decides everything that a query answers.
// (order, section, strings, hash, name) stay parameters: with a struct that lends slices, contracts are no plainer (docs/DECISIONS.md).
#![tactic(auto)]

ghost use Rattle.std.specs.Prelude.{◌≡◌, List, ℕ};
ghost use Rattle.reader.specs.Listing.{item, left_by};
ghost use Rattle.index.specs.Layout.{parts};
ghost use Rattle.index.specs.Inner.{PartsFit};
ghost use Rattle.section_records.specs.Records.{headers_left};
ghost use Rattle.section_records.specs.Inner.{query_left, first_record, opened_past};

use headers::{cut_header, parse_body};
use index::{NameIndex, open_index, places};
use index_query::{IndexIter, start};
use reader::{Error, NameTableIndex, RunTimeEndian};
use records::Record;

// A cursor over the records of a section: the place of the next header, the open index with its place in the section, and the cursor over
// its records. It is no call for customers. That its index fits the section is tested once, where the index is opened. The places of its parts
// are worked out at each step: a cursor with all of them is so large that a compiler copies it by `memcpy`, which the library for C would need
// from outside.
#[derive(Clone, Copy)]
pub struct QueryIter {
    pub at: usize,
    pub offset: u32,
    pub index: NameIndex,
    pub records: IndexIter,
}

// The cursor before the first header: no index is open.
// (A name that says what comes first, in place of a `Default`.)
#[tactic(auto, unfolding(crate::specs::Inner::first_record, index::specs::Layout::no_index))]
pub fn first_record() -> QueryIter
    ensures { result ≡ first_record }
{
    QueryIter {
        at: 0,
        offset: 0,
        index: NameIndex::default(),
        records: IndexIter {
            name: NameTableIndex(0),
            at: 0,
            next: 0,
        },
    }
}

// Opens the index whose header begins at a place, and looks for its candidates: a cursor before its first record; none at the section's end.
#[tactic(auto, using(crate::proofs::WalkLaws::headers_ended, crate::proofs::WalkLaws::headers_opened, crate::proofs::WalkLaws::none_opened, crate::proofs::WalkLaws::opened_left, crate::proofs::WalkLaws::header_read, crate::proofs::WalkLaws::offset_small, index::proofs::OpenLaws::opened_own, crate::proofs::WalkLaws::opened_fits))]
fn open_next(
    order: RunTimeEndian,
    section: &[u8],
    hash: u32,
    at: usize,
) -> Result<Option<QueryIter>, Error>
    ensures by_index { (strings name : List ℕ) → left_by result (query_left order section.now strings hash name) ≡ headers_left order section.now strings hash name at }
    ensures onward { opened_past section.now at result }
{
    if section.len() <= at {
        return Ok(None);
    }
    let cut = cut_header(order, section, at)?;
    let header = parse_body(order, section, cut)?;
    let parts = open_index(section, NameIndex::from(header))?;
    let records = start(order, section, hash, parts)?;
    Ok(Some(QueryIter {
        at: header.content.end,
        offset: header.offset.0 as u32,
        index: parts.index,
        records,
    }))
}

impl QueryIter {
    // The next record of the section. After an end or a refusal the cursor is worth nothing.
    #[tactic(auto, unfolding(reader::specs::Listing::followed_by, crate::specs::Inner::query_left), using(crate::proofs::WalkLaws::begins_small))]
    pub fn next(
        &mut self,
        order: RunTimeEndian,
        section: &[u8],
        strings: &[u8],
        hash: u32,
        name: &[u8],
    ) -> Result<Option<Record>, Error>
        requires { PartsFit section.now (parts self.old.index) }
        ensures left { left_by result (λ r. item r (query_left order section.now strings.now hash name.now self.new)) ≡ query_left order section.now strings.now hash name.now self.old }
        ensures fit { PartsFit section.now (parts self.new.index) }
    {
        loop {
            let parts = places(self.index);
            let record = self
                .records
                .next(order, section, strings, hash, name, self.offset, parts)?;
            if let Some(found) = record {
                return Ok(Some(found));
            }
            let Some(next) = open_next(order, section, hash, self.at)? else {
                return Ok(None);
            };
            *self = next;
        }
    }
}
