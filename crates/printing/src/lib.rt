// Prints the listing of a section to standard output (SPECIFICATION 13.4). Which bytes each line has is decided by `line_text` and
// `listing_text`, and proved there; here they are written.
// What cannot be read or written ends the program with the error.
#![tactic(auto)]

use line_text::LineText;
use listing::section_lines;
use listing_text::next_text;
use reader::Error;
use standard_input::read_full;
use std::io;

// How many lines are printed at most. No section has so many: it has at most 2,147,483,647 bytes, and each line but the last stands for
// eight of them or more.
const LINES: u32 = 4294967295;

// The listing of the little-endian section on standard input, of at most 65,536 bytes.
pub fn list_input(rt: &(impl Print + Input)) -> io::Result<()> {
    let mut bytes = [0; 65536];
    let len = read_full(rt, &mut bytes)?;
    let mut one = [0; 1];
    let more = read_full(rt, &mut one)?;
    if more != 0 {
        return rt.write_all(LineText::from(Err(Error::SectionTooLong)).bytes());
    }
    print_listing(rt, &bytes[..len])
}

// The listing of a little-endian section. It stops at the first line that cannot be written.
pub fn print_listing(rt: &impl Print, section: &[u8]) -> io::Result<()> {
    let mut cursor = section_lines();
    for _ in 0..LINES {
        let step = next_text(section, cursor);
        let Some(text) = step.text else {
            return Ok(());
        };
        rt.write_all(text.bytes())?;
        cursor = step.cursor;
    }
    Ok(())
}
