// The section query (SPECIFICATION 12): where the function or type of a name is described, over all indexes of a section.
//
// `plan_query` decides what is answered and what there is to write; `query` writes it into the records that it is lent.
// (order, section, strings, hash, name) stay parameters: with a struct that lends slices, contracts are no plainer (docs/DECISIONS.md).
#![tactic(auto)]

ghost use Rattle.std.specs.Prelude.{◌≡◌};
ghost use Rattle.reader.specs.Answers.{outcome};
ghost use Rattle.query.specs.Query.{section_query};

use query_plan::plan_query;
use reader::{Error, RunTimeEndian};
use records::Record;

// Where the function or type of a name is described: how many entries there are, over all indexes of the section; the records that are lent
// get the first of them. `hash` is the hash of the name. Where the query is refused no record changes, and records past the last that is
// written keep their contents.
#[tactic(auto, using(crate::proofs::Runs::query_is, crate::proofs::Runs::list_full, crate::proofs::Runs::list_none, crate::proofs::Runs::list_turn, crate::proofs::Runs::list_back))]
pub fn query(
    order: RunTimeEndian,
    section: &[u8],
    strings: &[u8],
    hash: u32,
    name: &[u8],
    out: &mut [Record],
) -> Result<u64, Error>
    ensures { record { answer = outcome result; records = out.new } ≡ section_query order section.now strings.now hash name.now out.old }
{
    let plan = plan_query(order, section, strings, hash, name);
    let mut writing = plan.writing;
    for place in out.iter_mut() {
        let Some(record) = writing.next(order, section, strings, hash, name) else {
            break;
        };
        *place = record;
    }
    plan.answer
}
