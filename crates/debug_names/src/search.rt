// The section query (SPECIFICATION 12): where the function or type of a name is described. The records are lent, and a
// refused query leaves them as they are.
// (order, section, strings, hash, name) stay parameters, which C hands over one by one.
ghost use Rattle.std.specs.Prelude.{◌≡◌};
ghost use Rattle.handles.specs.Handles.{order_of};
ghost use Rattle.exported.specs.Query.{query_answer};

use answers::{DebugNamesAnswer, total_answer};
use handles::order_of;
use query::query;
use records::Record;

// All entries of a name: the answer is their number, and the first of them are written into the records that are lent.
#[tactic(auto, unfolding(exported::specs::Query::query_answer))]
#[unsafe(no_mangle)]
pub extern "C" fn debug_names_query(
    order: u32,
    section: &[u8],
    strings: &[u8],
    hash: u32,
    name: &[u8],
    records: &mut [Record],
) -> DebugNamesAnswer
    ensures { record { answer = result; records = records.new } ≡ query_answer (order_of order) section.now strings.now hash name.now records.old }
{
    total_answer(query(order_of(order), section, strings, hash, name, records))
}
