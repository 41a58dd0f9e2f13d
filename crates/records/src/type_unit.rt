// The unit that the type_unit attribute of an entry names.
// (order, section, p) stay parameters: with a struct that lends the section, contracts are no plainer (docs/DECISIONS.md).
ghost use Rattle.std.specs.Prelude.{◌≡◌};
ghost use Rattle.reader.specs.Answers.{outcome};
ghost use Rattle.records.specs.Units.{type_shown};

use crate::unit::ShownUnit;
use attributes::{FirstAttribute, type_unit};
use index::Parts;
use reader::{Error, RunTimeEndian};

// The type unit, or none where the entry has no such attribute.
#[tactic(auto, unfolding(crate::specs::Units::type_shown))]
pub fn shown(
    order: RunTimeEndian,
    section: &[u8],
    p: Parts,
    first: Option<FirstAttribute>,
) -> Result<Option<ShownUnit>, Error>
    ensures { outcome result ≡ type_shown order section.now p first }
{
    let unit = type_unit(order, section, p, first)?;
    Ok(unit.map(|named| ShownUnit::from(named)))
}
