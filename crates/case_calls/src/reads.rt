// Bytes, numbers and strings of a part of the section, from a place up to an end.
use reader::{
    DebugStrOffset, Format, RunTimeEndian, read_initial_length, read_number, read_offset, read_u8,
    read_word, skip, split,
};
use show::{Show, Style};
use std::io;
use strings::DebugStr;

const STYLE: Style = Style::Case;

// What a reading answers:
//
//     1 2 4 8  a number of so many bytes          u  an unsigned LEB128 number       s  so many bytes skipped
//     w W      a word of Dwarf32, of Dwarf64      v  one of 16 bits                  p  a part of so many bytes split off
//     o O      an offset of Dwarf32, of Dwarf64   n  an initial length               z  the string at an offset in .debug_str
//
// (A `match` on the letter: the calls have answers of other types each, so that a table of closures would be longer.)
pub fn reading(
    rt: &impl Print,
    call: u8,
    order: RunTimeEndian,
    s: &[u8],
    at: usize,
    end: usize,
    number: usize,
) -> io::Result<()> {
    match call {
        b'1' => read_u8(s, at, end).show(rt, STYLE),
        b'2' => read_number::<u16>(order, s, at, end).show(rt, STYLE),
        b'4' => read_number::<u32>(order, s, at, end).show(rt, STYLE),
        b'8' => read_number::<u64>(order, s, at, end).show(rt, STYLE),
        b'w' => read_word(Format::Dwarf32, order, s, at, end).show(rt, STYLE),
        b'W' => read_word(Format::Dwarf64, order, s, at, end).show(rt, STYLE),
        b'o' => read_offset(Format::Dwarf32, order, s, at, end).show(rt, STYLE),
        b'O' => read_offset(Format::Dwarf64, order, s, at, end).show(rt, STYLE),
        b'n' => read_initial_length(order, s, at, end).show(rt, STYLE),
        b'u' => leb128::read::unsigned(s, at, end).show(rt, STYLE),
        b'v' => leb128::read::u16(s, at, end).show(rt, STYLE),
        b's' => skip(number, s, at, end).show(rt, STYLE),
        b'p' => split(number, s, at, end).show(rt, STYLE),
        _ => DebugStr::get_str(s, DebugStrOffset(number)).show(rt, STYLE),
    }
}
