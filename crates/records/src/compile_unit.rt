// The unit that the compile_unit attribute of an entry names.
// (order, section, p) stay parameters: with a struct that lends the section, contracts are no plainer (docs/DECISIONS.md).
ghost use Rattle.std.specs.Prelude.{◌≡◌};
ghost use Rattle.reader.specs.Answers.{outcome};
ghost use Rattle.records.specs.Units.{compile_shown};

use crate::unit::ShownUnit;
use attributes::{FirstAttribute, compile_unit};
use index::Parts;
use reader::{Error, RunTimeEndian};

// The compile unit, or none where the entry has no such attribute. (The type unit's in `type_unit.rt` differs in the call and the conversion: two lines.)
#[tactic(auto, unfolding(crate::specs::Units::compile_shown))]
pub fn shown(
    order: RunTimeEndian,
    section: &[u8],
    p: Parts,
    first: Option<FirstAttribute>,
) -> Result<Option<ShownUnit>, Error>
    ensures { outcome result ≡ compile_shown order section.now p first }
{
    let unit = compile_unit(order, section, p, first)?;
    Ok(unit.map(|offset| ShownUnit::compile(offset)))
}
