// The names of an index, one after another, and their strings (gimli's `names`, `NameTableIter`, `name_string_offset` and
// `name_string`; SPECIFICATION 7.5, 7.6 and 7.8).
// (order, section, index) stay parameters: with a struct that lends the section, contracts are no plainer (docs/DECISIONS.md).
ghost use Rattle.std.specs.Prelude.{◌≡◌};
ghost use Rattle.reader.specs.Answers.{outcome};
ghost use Rattle.reader.specs.Steps.{step_of};
ghost use Rattle.names.specs.Names.{first_name, name_step, name_string_offset_in, name_string_in, name_string_offset, name_string, name_string_bytes};

use index::{NameIndex, Parts, fit, nth_word};
use reader::{DebugStrOffset, Error, NameTableIndex, RunTimeEndian, Step, too_long};
use strings::{DebugStr, Str};

// A cursor over the names of an index: the number of the next one. Any number fits.
#[derive(Clone, Copy)]
pub struct NameTableIter {
    pub name_table_index: NameTableIndex,
}

// The cursor before the first name.
// (gimli's call, so no `Default`.)
#[tactic(auto, unfolding(crate::specs::Names::first_name))]
pub fn names() -> NameTableIter
    ensures { result ≡ first_name }
{
    NameTableIter {
        name_table_index: NameTableIndex(0),
    }
}

impl NameTableIter {
    // The next name's number. At the number of names or above it is the end, and the cursor does not move.
    pub fn next(self, section: &[u8], index: NameIndex) -> Step<NameTableIndex, NameTableIter>
        ensures { step_of result.answer result.cursor ≡ name_step section.now index self }
    {
        let mut cursor = self;
        let answer = cursor.advance(section, index);
        Step { answer, cursor }
    }

    // The same step of the cursor itself, so that a refusal can go up by `?`.
    #[tactic(auto, unfolding(crate::specs::Names::name_step, crate::specs::Names::step_from))]
    fn advance(&mut self, section: &[u8], index: NameIndex) -> Result<Option<NameTableIndex>, Error>
        ensures { step_of result self.new ≡ name_step section.now index self.old }
    {
        let name = self.name_table_index;
        fit(section, index)?;
        if index.name_count <= name.0 {
            return Ok(None);
        }
        self.name_table_index = NameTableIndex(name.0 + 1);
        Ok(Some(name))
    }
}

// The .debug_str offset of a name's string, in an index whose parts are `p`.
#[tactic(auto, unfolding(crate::specs::Names::name_string_offset_in))]
pub fn name_string_offset_in(
    order: RunTimeEndian,
    section: &[u8],
    p: Parts,
    name: NameTableIndex,
) -> Result<DebugStrOffset, Error>
    ensures { outcome result ≡ name_string_offset_in order section.now p name }
{
    let w = nth_word(
        p.index.format,
        order,
        section,
        p.name_table_data,
        p.entry_offset_data,
        name.0,
    )?;
    Ok(DebugStrOffset(w.value))
}

// And where the string stands.
#[tactic(auto, unfolding(crate::specs::Names::name_string_in))]
pub fn name_string_in(
    order: RunTimeEndian,
    section: &[u8],
    strings: &[u8],
    p: Parts,
    name: NameTableIndex,
) -> Result<Str, Error>
    ensures { outcome result ≡ name_string_in order section.now strings.now p name }
{
    let offset = name_string_offset_in(order, section, p, name)?;
    DebugStr::get_str(strings, offset)
}

// The .debug_str offset of a name's string.
#[tactic(auto, unfolding(crate::specs::Names::name_string_offset))]
pub fn name_string_offset(
    order: RunTimeEndian,
    section: &[u8],
    index: NameIndex,
    name: NameTableIndex,
) -> Result<DebugStrOffset, Error>
    ensures { outcome result ≡ name_string_offset order section.now index name }
{
    name_string_offset_in(order, section, fit(section, index)?, name)
}

// Where a name's string stands in .debug_str, which is lent as `strings`. A refusal 1 carries a place in the section that was
// being read.
#[tactic(auto, unfolding(crate::specs::Names::name_string))]
pub fn name_string(
    order: RunTimeEndian,
    section: &[u8],
    strings: &[u8],
    index: NameIndex,
    name: NameTableIndex,
) -> Result<Str, Error>
    ensures { outcome result ≡ name_string order section.now strings.now index name }
{
    if too_long(section) {
        return Err(Error::SectionTooLong);
    }
    if too_long(strings) {
        return Err(Error::SectionTooLong);
    }
    name_string_in(order, section, strings, fit(section, index)?, name)
}

// The bytes of a name's string, as a part of the lent .debug_str; no bytes where `name_string` refuses.
#[tactic(auto, using(crate::proofs::NameLaws::string_bytes), unfolding(crate::proofs::NameLaws::offset_bytes))]
pub fn name_string_slice<'a, 'b>(
    order: RunTimeEndian,
    section: &'a [u8],
    strings: &'b [u8],
    index: NameIndex,
    name: NameTableIndex,
) -> &'b [u8]
    ensures { result.now ≡ name_string_bytes order section.now strings.now index name }
{
    match name_string_offset(order, section, index, name) {
        Ok(offset) => DebugStr::get_str_slice(strings, offset),
        Err(_) => &strings[..0],
    }
}
