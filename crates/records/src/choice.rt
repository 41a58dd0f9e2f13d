// The choice of the unit that is shown of an entry: that of its type_unit attribute, else that of its compile_unit attribute, else the
// default compile unit of the index, else none.
//
// An entry of a split build may have both attributes (SPECIFICATION 12.6): its DIE belongs to the type unit, and the compile unit only tells
// which split file to load. That one is then not resolved, and so not refused.
// (order, section, p) stay parameters: with a struct that lends the section, contracts are no plainer (docs/DECISIONS.md).
ghost use Rattle.std.specs.Prelude.{◌≡◌};
ghost use Rattle.reader.specs.Answers.{outcome};
ghost use Rattle.records.specs.Units.{default_shown, entry_unit};

use crate::unit::ShownUnit;
use crate::{compile_unit, type_unit};
use attributes::Facts;
use index::Parts;
use names::default_compile_unit_in;
use reader::{Error, RunTimeEndian};

// The default compile unit, kind 1, else no unit.
#[tactic(auto, unfolding(crate::specs::Units::default_shown))]
fn default_shown(order: RunTimeEndian, section: &[u8], p: Parts) -> Result<ShownUnit, Error>
    ensures { outcome result ≡ default_shown order section.now p }
{
    Ok(match default_compile_unit_in(order, section, p)? {
        Some(offset) => ShownUnit::compile(offset),
        None => ShownUnit { kind: 0, value: 0 },
    })
}

// The unit that is shown of an entry.
#[tactic(auto, unfolding(crate::specs::Units::entry_unit))]
pub fn entry_unit(
    order: RunTimeEndian,
    section: &[u8],
    p: Parts,
    facts: Facts,
) -> Result<ShownUnit, Error>
    ensures { outcome result ≡ entry_unit order section.now p facts }
{
    if let Some(unit) = type_unit::shown(order, section, p, facts.type_unit)? {
        return Ok(unit);
    }
    if let Some(unit) = compile_unit::shown(order, section, p, facts.compile_unit)? {
        return Ok(unit);
    }
    default_shown(order, section, p)
}
