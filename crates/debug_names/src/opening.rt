// Opening a section: its headers one after another, what they say, and the indexes that they describe (SPECIFICATION 5 and 6.3).
ghost use Rattle.std.specs.Prelude.{◌≡◌};
ghost use Rattle.headers.specs.Headers.{header_step};
ghost use Rattle.handles.specs.Handles.{order_of};
ghost use Rattle.step_answers.specs.Steps.{header_facts};
ghost use Rattle.exported.specs.Demand3.{next_header_call, open_call};

use answers::{DebugNamesAnswer, open_answer};
use handles::{DebugNamesIndex, order_of};
use headers::NameIndexHeaderIter;
use index::{NameIndex, open_index};
use step_answers::{DebugNamesHeader, DebugNamesHeaderStep, header_answer, header_facts};

// The next header, from a cursor.
#[unsafe(no_mangle)]
pub extern "C" fn debug_names_next_header(
    order: u32,
    section: &[u8],
    at: usize,
) -> DebugNamesHeaderStep
    ensures { result ≡ next_header_call order section.now at }
{
    header_answer(NameIndexHeaderIter { at }.next(order_of(order), section))
}

// What else the header at a place says.
#[unsafe(no_mangle)]
pub extern "C" fn debug_names_header_at(order: u32, section: &[u8], at: usize) -> DebugNamesHeader
    ensures { result ≡ header_facts (header_step (order_of order) section.now (record { at = at })).answer }
{
    header_facts(
        NameIndexHeaderIter { at }
            .next(order_of(order), section)
            .answer,
    )
}

// Opens the index of a handle.
#[unsafe(no_mangle)]
pub extern "C" fn debug_names_open(section: &[u8], index: DebugNamesIndex) -> DebugNamesAnswer
    ensures { result ≡ open_call section.now index }
{
    open_answer(open_index(section, NameIndex::from(index)))
}
