// Document 01's cases for bytes, numbers, refusals and strings that are not marked P, and document 02's for padded numbers. The file stdin
// beside src/ has the cases, one on each line, with what their letters and parts are; the file stdout has what the documents say, worked out by
// hand.
#![tactic(auto)]

use case_lines::Case;
use reader::{DebugStrOffset, Error, NameEntryOffset};
use show::{Marked, Show, Style};
use standard_input::read_full;
use std::io;
use strings::DebugStr;

fn main(rt: HostRuntime) -> io::Result<()> {
    let mut text = [0; 65536];
    let len = read_full(&rt, &mut text)?;
    case_lines::each(&text[..len], |case| one(&rt, case))
}

// A case: its name, and what is answered for its section, with the bytes that it changes.
fn one(rt: &impl Print, case: Case) -> io::Result<()> {
    let mut bytes = [0; 512];
    rt.write_all(case.title())?;
    rt.write_all(b":")?;
    answer(rt, case, case.changed(1, 3, &mut bytes))?;
    rt.write_all(b"\n")
}

// What the case asks for. The last of three numbers, or the first of fewer, is how many bytes there are, or an offset.
fn answer(rt: &impl Print, case: Case, s: &[u8]) -> io::Result<()> {
    let numbers = case.numbers(2);
    let number = numbers.values[2].unwrap_or(numbers.get(0)) as usize;
    match case.letter(0) {
        b'r' => error_of(numbers.get(0), numbers.get(1)).show(rt, Style::Case),
        b'f' => Ok::<u8, Error>(case.format(1).word_size()).show(rt, Style::Case),
        b'b' => Marked(DebugStr::get_str_slice(s, DebugStrOffset(number))).show(rt, Style::Case),
        call => case_calls::reading(
            rt,
            call,
            case.order(),
            s,
            numbers.get(0) as usize,
            numbers.get(1) as usize,
            number,
        ),
    }
}

// The refusal with this number and this value (SPECIFICATION 2.1).
fn error_of(number: u64, value: u64) -> Error {
    match number {
        1 => Error::UnexpectedEof(value as usize),
        2 => Error::UnknownReservedLength((value % 4294967296) as u32),
        3 => Error::UnknownVersion((value % 65536) as u16),
        4 => Error::AbbreviationTagZero,
        5 => Error::AttributeNameZero,
        6 => Error::AttributeFormZero,
        7 => Error::BadUnsignedLeb128,
        8 => Error::InvalidAbbreviationCode(value),
        9 => Error::UnknownForm((value % 65536) as u16),
        10 => Error::NoEntryAtGivenOffset(NameEntryOffset(value as usize)),
        11 => Error::InvalidNameAttributeIndex(value),
        12 => Error::UnsupportedAttributeForm((value % 65536) as u16),
        13 => Error::SectionTooLong,
        _ => Error::DoesNotFit,
    }
}
