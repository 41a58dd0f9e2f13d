// The answers of a case.
use abbreviations::{get, parse, read_attribute, read_declaration};
use case_calls::index_of;
use case_lines::Case;
use headers::{DebugNames, NameIndexHeader, NameIndexHeaderIter, cut_header, parse_body};
use index::{NameIndex, fit, nth_word, words};
use reader::{DebugNamesOffset, Error, Format, Part, RunTimeEndian, Step};
use show::{Show, Style};
use std::io;

const STYLE: Style = Style::Case;

// A line: the name of the case, something behind it, and an answer.
pub fn line(rt: &impl Print, case: Case, behind: &[u8], answer: &impl Show) -> io::Result<()> {
    rt.write_all(case.title())?;
    rt.write_all(behind)?;
    rt.write_all(b":")?;
    answer.show(rt, STYLE)?;
    rt.write_all(b"\n")
}

// The same with a number behind the name.
fn numbered(rt: &impl Print, case: Case, number: u64, answer: &impl Show) -> io::Result<()> {
    rt.write_all(case.title())?;
    print!(rt; " {number}:")?;
    answer.show(rt, STYLE)?;
    rt.write_all(b"\n")
}

// A step of the header cursor that stands at a place.
fn step(order: RunTimeEndian, s: &[u8], at: usize) -> Step<NameIndexHeader, NameIndexHeaderIter> {
    NameIndexHeaderIter { at }.next(order, s)
}

// The first three header steps, each with the cursor that the one before it left.
pub fn headers(rt: &impl Print, case: Case, s: &[u8]) -> io::Result<()> {
    let mut cursor = DebugNames::headers();
    for n in 1..=3 {
        let step = cursor.next(case.order(), s);
        numbered(rt, case, n, &step)?;
        cursor = step.cursor;
    }
    Ok(())
}

// The first five steps over the names of the section's index.
pub fn names(rt: &impl Print, case: Case, s: &[u8]) -> io::Result<()> {
    let index = index_of(case, s);
    let mut cursor = names::names();
    for n in 1..=5 {
        let step = cursor.next(s, index);
        numbered(rt, case, n, &step)?;
        cursor = step.cursor;
    }
    Ok(())
}

// The index of case A's header with its content from and to the two places: `NameIndex::new`, and gimli's other name for it.
pub fn opened(rt: &impl Print, case: Case, s: &[u8]) -> io::Result<()> {
    let numbers = case.numbers(2);
    let header = with_content(numbers.get(0) as usize, numbers.get(1) as usize);
    line(rt, case, b"", &NameIndex::new(s, header))?;
    line(rt, case, b", its method", &index::index(s, header))
}

fn with_content(at: usize, end: usize) -> NameIndexHeader {
    NameIndexHeader {
        offset: DebugNamesOffset(0),
        length: 105,
        format: Format::Dwarf32,
        version: 5,
        compile_unit_count: 1,
        local_type_unit_count: 0,
        foreign_type_unit_count: 0,
        bucket_count: 2,
        name_count: 3,
        abbrev_table_size: 7,
        augmentation_string: None,
        content: Part { at, end },
    }
}

// The one answer of a line.
pub fn answer(rt: &impl Print, case: Case, s: &[u8]) -> io::Result<()> {
    let order = case.order();
    let number = case.numbers(2).get32(0);
    match case.letter(0) {
        b'f' => line(rt, case, b"", &step(order, s, 0)),
        b'x' => {
            rt.write_all(case.title())?;
            rt.write_all(b", opened:")?;
            first_index(rt, order, s, b"")?;
            rt.write_all(b"\n")
        }
        b'p' => line(rt, case, b"", &fit(s, index_of(case, s))),
        b'n' => line(
            rt,
            case,
            b"",
            &nth_word(Format::Dwarf32, order, s, 60, 72, number),
        ),
        _ => line(
            rt,
            case,
            b"",
            &Ok::<usize, Error>(words(case.format(2), number)),
        ),
    }
}

// A mark and the index of the first header; or what the header step says where that gives none.
fn first_index(rt: &impl Print, order: RunTimeEndian, s: &[u8], mark: &[u8]) -> io::Result<()> {
    let step = DebugNames::headers().next(order, s);
    match step.answer {
        Ok(Some(header)) => {
            rt.write_all(mark)?;
            NameIndex::new(s, header).show(rt, STYLE)
        }
        _ => step.show(rt, STYLE),
    }
}

// A table of abbreviations read whole.
pub fn table(rt: &impl Print, case: Case, s: &[u8]) -> io::Result<()> {
    line(rt, case, b"", &parse(s, 0, s.len()))
}

// What is asked for each of the numbers: the name, the number and the answer; a search has "code" before its number.
pub fn each(rt: &impl Print, case: Case, s: &[u8]) -> io::Result<()> {
    for number in case.numbers(2).values.iter().flatten() {
        rt.write_all(case.title())?;
        if matches!(case.letter(0), b'w' | b'q') {
            rt.write_all(b", code")?;
        }
        print!(rt; " {number}:")?;
        one(rt, case, s, *number)?;
        rt.write_all(b"\n")?;
    }
    Ok(())
}

// The answer for one of the numbers.
// (A `match` on the letter: the calls have answers of other types each, so that a table of closures would be longer.)
fn one(rt: &impl Print, case: Case, s: &[u8], number: u64) -> io::Result<()> {
    let order = case.order();
    let at = number as usize;
    let first = s.get(..at).unwrap_or(b"");
    match case.letter(0) {
        b's' => step(order, s, at).show(rt, STYLE),
        b'r' => step(order, first, 0).show(rt, STYLE),
        b'g' => first_index(rt, order, first, b" header,"),
        b'c' => cut_header(order, s, at).show(rt, STYLE),
        b'b' => body(order, s, at).show(rt, STYLE),
        b'e' => parse(s, 0, at).show(rt, STYLE),
        b'd' => match read_declaration(s, at, s.len()) {
            Ok(None) => rt.write_all(b" ok end"),
            read => read.show(rt, STYLE),
        },
        b'a' => read_attribute(s, at, s.len()).show(rt, STYLE),
        _ => get(s, 0, s.len(), number).show(rt, STYLE),
    }
}

// What follows the length of a header.
fn body(order: RunTimeEndian, s: &[u8], at: usize) -> Result<NameIndexHeader, Error> {
    parse_body(order, s, cut_header(order, s, at)?)
}
