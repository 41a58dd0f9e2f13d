// The strings of names (SPECIFICATION 7.6 to 7.8).
// (order, section, index) stay parameters, which C hands over one by one.
ghost use Rattle.std.specs.Prelude.{◌≡◌};
ghost use Rattle.strings.specs.Strings.{get_str};
ghost use Rattle.names.specs.Names.{name_string_offset, name_string};
ghost use Rattle.handles.specs.Handles.{order_of, index_from};
ghost use Rattle.answers.specs.Answers.{handed, str_offset_answer};
ghost use Rattle.step_answers.specs.Steps.{string_answer};

use answers::{DebugNamesAnswer, str_offset_answer};
use handles::{DebugNamesIndex, order_of};
use index::NameIndex;
use names::{name_string, name_string_offset};
use reader::{DebugStrOffset, NameTableIndex};
use step_answers::{DebugNamesString, string_answer};
use strings::DebugStr;

// The .debug_str offset of a name's string.
#[unsafe(no_mangle)]
pub extern "C" fn debug_names_name_string_offset(
    order: u32,
    section: &[u8],
    index: DebugNamesIndex,
    name: NameTableIndex,
) -> DebugNamesAnswer
    ensures { result ≡ handed str_offset_answer (name_string_offset (order_of order) section.now (index_from index) name) }
{
    str_offset_answer(name_string_offset(order_of(order), section, NameIndex::from(index), name))
}

// Where a name's string stands in .debug_str.
#[unsafe(no_mangle)]
pub extern "C" fn debug_names_name_string(
    order: u32,
    section: &[u8],
    strings: &[u8],
    index: DebugNamesIndex,
    name: NameTableIndex,
) -> DebugNamesString
    ensures { result ≡ string_answer (name_string (order_of order) section.now strings.now (index_from index) name) }
{
    string_answer(name_string(
        order_of(order),
        section,
        strings,
        NameIndex::from(index),
        name,
    ))
}

// Where the string at an offset of .debug_str stands.
#[unsafe(no_mangle)]
pub extern "C" fn debug_names_get_str(strings: &[u8], offset: DebugStrOffset) -> DebugNamesString
    ensures { result ≡ string_answer (get_str strings.now offset.0) }
{
    string_answer(DebugStr::get_str(strings, offset))
}
