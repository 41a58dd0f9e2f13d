// The units of an index (gimli's `compile_unit`, `local_type_unit`, `foreign_type_unit`, `type_unit` and `default_compile_unit`).
//
// A unit's number is skipped to and then read: a number equal to the count is refused at the list's end, and a larger one at the
// list's start. Compile units and local type units are two calls, as in gimli, over the same `unit_in`.
// Each is found in an index that fits, by its parts; the calls below test that first.
// (order, section, index) stay parameters: with a struct that lends the section, contracts are no plainer (docs/DECISIONS.md).
ghost use Rattle.std.specs.Prelude.{◌≡◌};
ghost use Rattle.reader.specs.Answers.{outcome};
ghost use Rattle.names.specs.Units.{unit_in, compile_unit_in, local_type_unit_in, foreign_type_unit_in, type_unit_in, default_compile_unit_in, nth_compile_unit, local_type_unit, foreign_type_unit, nth_type_unit, default_compile_unit};

use index::{NameIndex, Parts, fit, nth_word};
use reader::{
    DebugInfoOffset, DebugTypeSignature, Error, Format, RunTimeEndian, read_number, skip,
};

// A type unit: the offset of a local one, or the signature of a foreign one.
#[derive(Clone, Copy)]
pub enum NameTypeUnit {
    Local(DebugInfoOffset),
    Foreign(DebugTypeSignature),
}

// The unit of that number in a list of .debug_info offsets from `at` up to `end`.
#[tactic(auto, unfolding(crate::specs::Units::unit_in))]
fn unit_in(
    format: Format,
    order: RunTimeEndian,
    s: &[u8],
    at: usize,
    end: usize,
    number: u32,
) -> Result<DebugInfoOffset, Error>
    ensures { outcome result ≡ unit_in format order s.now at end number }
{
    let w = nth_word(format, order, s, at, end, number)?;
    Ok(DebugInfoOffset(w.value))
}

// The .debug_info offset of a compile unit, in an index whose parts are `p`.
#[tactic(auto, unfolding(crate::specs::Units::compile_unit_in))]
pub fn compile_unit_in(
    order: RunTimeEndian,
    section: &[u8],
    p: Parts,
    number: u32,
) -> Result<DebugInfoOffset, Error>
    ensures { outcome result ≡ compile_unit_in order section.now p number }
{
    let end = p.local_type_unit_list;
    unit_in(
        p.index.format,
        order,
        section,
        p.compile_unit_list,
        end,
        number,
    )
}

// The .debug_info offset of a local type unit.
#[tactic(auto, unfolding(crate::specs::Units::local_type_unit_in))]
fn local_type_unit_in(
    order: RunTimeEndian,
    section: &[u8],
    p: Parts,
    number: u32,
) -> Result<DebugInfoOffset, Error>
    ensures { outcome result ≡ local_type_unit_in order section.now p number }
{
    let end = p.foreign_type_unit_list;
    unit_in(
        p.index.format,
        order,
        section,
        p.local_type_unit_list,
        end,
        number,
    )
}

// The signature of a foreign type unit.
#[tactic(auto, unfolding(crate::specs::Units::foreign_type_unit_in))]
fn foreign_type_unit_in(
    order: RunTimeEndian,
    section: &[u8],
    p: Parts,
    number: u32,
) -> Result<DebugTypeSignature, Error>
    ensures { outcome result ≡ foreign_type_unit_in order section.now p number }
{
    let end = p.bucket_data;
    let place = skip(
        8 * (number as usize),
        section,
        p.foreign_type_unit_list,
        end,
    )?;
    let r = read_number::<u64>(order, section, place, end)?;
    Ok(DebugTypeSignature(r.value))
}

// The type unit of a number: local numbers come first, then foreign ones.
#[tactic(auto, unfolding(crate::specs::Units::type_unit_in))]
pub fn type_unit_in(
    order: RunTimeEndian,
    section: &[u8],
    p: Parts,
    number: u32,
) -> Result<NameTypeUnit, Error>
    ensures { outcome result ≡ type_unit_in order section.now p number }
{
    let local = p.index.local_type_unit_count;
    if number < local {
        let u = local_type_unit_in(order, section, p, number)?;
        return Ok(NameTypeUnit::Local(u));
    }
    let t = foreign_type_unit_in(order, section, p, number - local)?;
    Ok(NameTypeUnit::Foreign(t))
}

// The only compile unit: entries of such an index need not name it.
#[tactic(auto, unfolding(crate::specs::Units::default_compile_unit_in))]
pub fn default_compile_unit_in(
    order: RunTimeEndian,
    section: &[u8],
    p: Parts,
) -> Result<Option<DebugInfoOffset>, Error>
    ensures { outcome result ≡ default_compile_unit_in order section.now p }
{
    if p.index.compile_unit_count == 1 {
        let u = compile_unit_in(order, section, p, 0)?;
        return Ok(Some(u));
    }
    Ok(None)
}

// The calls of an index: 13 and 14 come first, and then the unit is looked for as above.

// A compile unit.
#[tactic(auto, unfolding(crate::specs::Units::nth_compile_unit))]
pub fn compile_unit(
    order: RunTimeEndian,
    section: &[u8],
    index: NameIndex,
    number: u32,
) -> Result<DebugInfoOffset, Error>
    ensures { outcome result ≡ nth_compile_unit order section.now index number }
{
    compile_unit_in(order, section, fit(section, index)?, number)
}

// A local type unit.
#[tactic(auto, unfolding(crate::specs::Units::local_type_unit))]
pub fn local_type_unit(
    order: RunTimeEndian,
    section: &[u8],
    index: NameIndex,
    number: u32,
) -> Result<DebugInfoOffset, Error>
    ensures { outcome result ≡ local_type_unit order section.now index number }
{
    local_type_unit_in(order, section, fit(section, index)?, number)
}

// A foreign type unit.
#[tactic(auto, unfolding(crate::specs::Units::foreign_type_unit))]
pub fn foreign_type_unit(
    order: RunTimeEndian,
    section: &[u8],
    index: NameIndex,
    number: u32,
) -> Result<DebugTypeSignature, Error>
    ensures { outcome result ≡ foreign_type_unit order section.now index number }
{
    foreign_type_unit_in(order, section, fit(section, index)?, number)
}

// A type unit of either kind.
#[tactic(auto, unfolding(crate::specs::Units::nth_type_unit))]
pub fn type_unit(
    order: RunTimeEndian,
    section: &[u8],
    index: NameIndex,
    number: u32,
) -> Result<NameTypeUnit, Error>
    ensures { outcome result ≡ nth_type_unit order section.now index number }
{
    type_unit_in(order, section, fit(section, index)?, number)
}

// The only compile unit, if there is one alone.
#[tactic(auto, unfolding(crate::specs::Units::default_compile_unit))]
pub fn default_compile_unit(
    order: RunTimeEndian,
    section: &[u8],
    index: NameIndex,
) -> Result<Option<DebugInfoOffset>, Error>
    ensures { outcome result ≡ default_compile_unit order section.now index }
{
    default_compile_unit_in(order, section, fit(section, index)?)
}
