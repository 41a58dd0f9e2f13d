// The section query for test programs: records that no query writes are lent to it, and are handed back with its answer, so that a case
// sees which of them were written.
#![tactic(auto)]

ghost use Rattle.std.specs.Prelude.{◌≤◌};

use query::query;
use reader::{Error, NameTableIndex, RunTimeEndian, UnitOffset};
use records::Record;

// What a query answers, and four records as it leaves them.
#[derive(Clone, Copy)]
pub struct Got {
    pub answer: Result<u64, Error>,
    pub recs: [Record; 4],
}

// A record that no query writes: there are no unit kind 7 and no flag 7.
fn old() -> Record {
    Record {
        unit_value: 777,
        die_offset: UnitOffset(777),
        index_offset: 777,
        entry_offset: 777,
        name: NameTableIndex(777),
        tag: 777,
        unit_kind: 7,
        has_die_offset: 7,
    }
}

// Whether a record kept all its contents.
pub fn is_old(r: Record) -> bool {
    let o = old();
    r.unit_value == o.unit_value
        && r.die_offset.0 == o.die_offset.0
        && r.index_offset == o.index_offset
        && r.entry_offset == o.entry_offset
        && r.name.0 == o.name.0
        && r.tag == o.tag
        && r.unit_kind == o.unit_kind
        && r.has_die_offset == o.has_die_offset
}

// What a query reads: a section in its byte order, and the .debug_str.
#[derive(Clone, Copy)]
pub struct Lent<'a> {
    pub order: RunTimeEndian,
    pub section: &'a [u8],
    pub strings: &'a [u8],
}

impl Lent<'_> {
    // A query that is lent the first of four records, as many as there is room for.
    pub fn query(self, hash: u32, name: &[u8], room: usize) -> Got
        requires { room ≤ 4 }
    {
        let mut recs = [old(); 4];
        let answer = query(
            self.order,
            self.section,
            self.strings,
            hash,
            name,
            &mut recs[..room],
        );
        Got { answer, recs }
    }
}
