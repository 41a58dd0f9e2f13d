// The unit that an attribute names (gimli's `NameAttribute::compile_unit` and `NameAttribute::type_unit`): its number, which is then
// resolved in the index that fits, whose parts are `p`. The two differ in what they read and answer, and share `unit_number`. The unit
// stands apart from the attribute, so that a walk over parents meets no refusal of a unit.
// (order, section, p) stay parameters: with a struct that lends the section, contracts are no plainer (docs/DECISIONS.md).
ghost use Rattle.std.specs.Prelude.{◌≡◌};
ghost use Rattle.reader.specs.Answers.{outcome};
ghost use Rattle.attributes.specs.Meaning.{compile_unit_of, type_unit_of};

use crate::attribute::{FirstAttribute, unit_number};
use index::Parts;
use names::NameTypeUnit;
use reader::{DebugInfoOffset, Error, RunTimeEndian};

// The compile unit: the index's unit of that number.
#[tactic(auto, unfolding(crate::specs::Meaning::compile_unit_of, crate::specs::Meaning::numbered_unit))]
pub fn compile_unit(
    order: RunTimeEndian,
    section: &[u8],
    p: Parts,
    first: Option<FirstAttribute>,
) -> Result<Option<DebugInfoOffset>, Error>
    ensures { outcome result ≡ compile_unit_of order section.now p first }
{
    unit_number(first)?
        .map(|number| names::compile_unit_in(order, section, p, number))
        .transpose()
}

// The type unit: the index's type unit of that number, local ones first.
#[tactic(auto, unfolding(crate::specs::Meaning::type_unit_of, crate::specs::Meaning::numbered_type_unit))]
pub fn type_unit(
    order: RunTimeEndian,
    section: &[u8],
    p: Parts,
    first: Option<FirstAttribute>,
) -> Result<Option<NameTypeUnit>, Error>
    ensures { outcome result ≡ type_unit_of order section.now p first }
{
    unit_number(first)?
        .map(|number| names::type_unit_in(order, section, p, number))
        .transpose()
}
