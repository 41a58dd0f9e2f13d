// The value of an attribute of an entry (gimli's `NameAttributeValue` and `read_debug_names_form_value`; SPECIFICATION 9.3;
// DWARF 5, 7.5): twelve forms, each read at a place of a part as the readings of `reader` are.
// (s, at, end) stay parameters: with a struct of s and end, as was tried, contracts are no plainer (docs/DECISIONS.md).
#![tactic(auto)]

ghost use Rattle.std.specs.Prelude.{◌≡◌};
ghost use Rattle.reader.specs.Answers.{outcome};
ghost use Rattle.forms.specs.Forms.{form_value};

use crate::NameAttributeValue::{Flag, Offset, Unsigned};
use reader::{Error, Read, RunTimeEndian, read_number, read_u8};

// The value of an attribute.
#[derive(Clone, Copy)]
pub enum NameAttributeValue {
    // An unsigned number: forms data1, data2, data4, data8 and udata.
    Unsigned(u64),
    // An offset: forms ref1, ref2, ref4, ref8 and ref_udata.
    Offset(usize),
    // A flag: forms flag and flag_present.
    Flag(bool),
}

// The value at `at` in the form of that code; a form that is none of the twelve is refused with 9.
#[tactic(auto, unfolding(crate::specs::Forms::form_value, crate::specs::Forms::as_flag, crate::specs::Forms::as_unsigned, crate::specs::Forms::as_offset))]
#[inline(always)]
pub fn read_debug_names_form_value(
    form: u16,
    order: RunTimeEndian,
    s: &[u8],
    at: usize,
    end: usize,
) -> Result<Read<NameAttributeValue>, Error>
    ensures { outcome result ≡ form_value form order s.now at end }
{
    Ok(match form {
        0x0c => read_u8(s, at, end)?.map(|n| Flag(n != 0)),
        0x19 => Read {
            value: Flag(true),
            next: at,
        },
        0x0b => read_u8(s, at, end)?.map(|n| Unsigned(n as u64)),
        0x05 => read_number::<u16>(order, s, at, end)?.map(|n| Unsigned(n as u64)),
        0x06 => read_number::<u32>(order, s, at, end)?.map(|n| Unsigned(n as u64)),
        0x07 => read_number::<u64>(order, s, at, end)?.map(|n| Unsigned(n)),
        0x0f => leb128::read::unsigned(s, at, end)?.map(|n| Unsigned(n)),
        0x11 => read_u8(s, at, end)?.map(|n| Offset(n as usize)),
        0x12 => read_number::<u16>(order, s, at, end)?.map(|n| Offset(n as usize)),
        0x13 => read_number::<u32>(order, s, at, end)?.map(|n| Offset(n as usize)),
        0x14 => read_number::<u64>(order, s, at, end)?.map(|n| Offset(n as usize)),
        0x15 => leb128::read::unsigned(s, at, end)?.map(|n| Offset(n as usize)),
        _ => return Err(Error::UnknownForm(form)),
    })
}
