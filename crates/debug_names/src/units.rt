// The units of an index, by number (SPECIFICATION 7.2 to 7.4).
// Each is an exported function of its own, since C knows no generic one.
// (order, section, index) stay parameters, which C hands over one by one.
ghost use Rattle.std.specs.Prelude.{◌≡◌};
ghost use Rattle.names.specs.Units.{nth_compile_unit, local_type_unit, foreign_type_unit, nth_type_unit, default_compile_unit};
ghost use Rattle.handles.specs.Handles.{order_of, index_from};
ghost use Rattle.answers.specs.Answers.{handed, unit_answer, signature_answer, type_unit_answer, default_unit_answer};

use answers::{
    DebugNamesAnswer, default_unit_answer, signature_answer, type_unit_answer, unit_answer,
};
use handles::{DebugNamesIndex, order_of};
use index::NameIndex;
use names::{compile_unit, default_compile_unit, foreign_type_unit, local_type_unit, type_unit};

// A compile unit: kind 1.
#[unsafe(no_mangle)]
pub extern "C" fn debug_names_compile_unit(
    order: u32,
    section: &[u8],
    index: DebugNamesIndex,
    number: u32,
) -> DebugNamesAnswer
    ensures { result ≡ handed (unit_answer 1) (nth_compile_unit (order_of order) section.now (index_from index) number) }
{
    unit_answer(
        1,
        compile_unit(order_of(order), section, NameIndex::from(index), number),
    )
}

// A local type unit: kind 2.
#[unsafe(no_mangle)]
pub extern "C" fn debug_names_local_type_unit(
    order: u32,
    section: &[u8],
    index: DebugNamesIndex,
    number: u32,
) -> DebugNamesAnswer
    ensures { result ≡ handed (unit_answer 2) (local_type_unit (order_of order) section.now (index_from index) number) }
{
    unit_answer(
        2,
        local_type_unit(order_of(order), section, NameIndex::from(index), number),
    )
}

// A foreign type unit: kind 3.
#[unsafe(no_mangle)]
pub extern "C" fn debug_names_foreign_type_unit(
    order: u32,
    section: &[u8],
    index: DebugNamesIndex,
    number: u32,
) -> DebugNamesAnswer
    ensures { result ≡ handed signature_answer (foreign_type_unit (order_of order) section.now (index_from index) number) }
{
    signature_answer(foreign_type_unit(order_of(order), section, NameIndex::from(index), number))
}

// A type unit: local numbers first, then foreign ones.
#[unsafe(no_mangle)]
pub extern "C" fn debug_names_type_unit(
    order: u32,
    section: &[u8],
    index: DebugNamesIndex,
    number: u32,
) -> DebugNamesAnswer
    ensures { result ≡ handed type_unit_answer (nth_type_unit (order_of order) section.now (index_from index) number) }
{
    type_unit_answer(type_unit(order_of(order), section, NameIndex::from(index), number))
}

// The only compile unit, or none.
#[unsafe(no_mangle)]
pub extern "C" fn debug_names_default_compile_unit(
    order: u32,
    section: &[u8],
    index: DebugNamesIndex,
) -> DebugNamesAnswer
    ensures { result ≡ handed default_unit_answer (default_compile_unit (order_of order) section.now (index_from index)) }
{
    default_unit_answer(default_compile_unit(order_of(order), section, NameIndex::from(index)))
}
