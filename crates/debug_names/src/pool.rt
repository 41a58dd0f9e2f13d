// The entries of a name, and an entry by its handle, each with its five facts (SPECIFICATION 9). One pass over an
// entry tells all of them.
// (order, section, index) stay parameters, which C hands over one by one.
ghost use Rattle.std.specs.Prelude.{◌≡◌};
ghost use Rattle.entries.specs.Series.{name_entries};
ghost use Rattle.handles.specs.Handles.{order_of, index_from};
ghost use Rattle.answers.specs.Answers.{handed, entries_answer};
ghost use Rattle.entry_answers.specs.Entry.{entry_answer};
ghost use Rattle.exported.specs.Demand3.{next_entry_call};

use answers::{DebugNamesAnswer, entries_answer};
use entries::name_entries;
use entry_answers::{DebugNamesEntry, entry_answer, entry_step_answer};
use handles::{DebugNamesIndex, order_of};
use index::NameIndex;
use reader::{NameEntryOffset, NameTableIndex};

// The cursor before the first entry of a name.
#[unsafe(no_mangle)]
pub extern "C" fn debug_names_name_entries(
    order: u32,
    section: &[u8],
    index: DebugNamesIndex,
    name: NameTableIndex,
) -> DebugNamesAnswer
    ensures { result ≡ handed entries_answer (name_entries (order_of order) section.now (index_from index) name) }
{
    entries_answer(name_entries(order_of(order), section, NameIndex::from(index), name))
}

// The next entry, from a cursor.
#[unsafe(no_mangle)]
pub extern "C" fn debug_names_next_entry(
    order: u32,
    section: &[u8],
    index: DebugNamesIndex,
    at: usize,
) -> DebugNamesEntry
    ensures { result ≡ next_entry_call order section.now index at }
{
    entry_step_answer(order_of(order), section, NameIndex::from(index), at)
}

// The entry with a handle.
#[unsafe(no_mangle)]
pub extern "C" fn debug_names_name_entry(
    order: u32,
    section: &[u8],
    index: DebugNamesIndex,
    offset: NameEntryOffset,
) -> DebugNamesEntry
    ensures { result ≡ entry_answer (order_of order) section.now (index_from index) offset }
{
    entry_answer(order_of(order), section, NameIndex::from(index), offset)
}
