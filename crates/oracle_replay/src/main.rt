// gimli's own answers for .debug_names, replayed: standard input has sections, and the file stdout beside src/ has what gimli 0.34.0
// answered to every call on each, where a LEB128 number is longer than gimli allows with section 7.6's reading (tools/oracle/README.md says how
// they were made, and has the form of the lines).
//
// The input, all numbers little-endian: how many sections there are (2 bytes), and for each the byte order (1 byte, 0 little), the
// lengths of .debug_names and .debug_str (2 bytes each, at most 4,096), and the bytes of the two. There is more of it than one
// buffer holds: it is read a section at a time.
#![tactic(auto)]

mod hash_table; // the names of each bucket and of hashes, and the table check
mod header_steps; // header steps, and the index of each header
mod name_strings; // names, their offsets and their strings
mod pool; // the series of each name, and entries and their facts by handle
mod queries; // the section query
mod table; // the abbreviations by code
mod tally; // how many lines of each call, and refusals, there are
mod units; // counts and units

use lent_records::Lent;
use reader::RunTimeEndian;
use standard_input::read_full;
use std::io;
use tally::Tally;

fn main(rt: HostRuntime) -> io::Result<()> {
    let mut tally = Tally::new();
    replay(&rt, &mut tally)?;
    tally.totals(&rt)
}

// Answers each section in turn, up to the first that is cut short.
fn replay(rt: &(impl Print + Input), t: &mut Tally) -> io::Result<()> {
    let mut count = [0; 2];
    read_full(rt, &mut count)?;
    for number in 0..u16::from_le_bytes(count) {
        println!(rt; "section {number}")?;
        t.section();
        if !one(rt, t)? {
            return rt.write_all(b"cut short\n");
        }
    }
    Ok(())
}

// Reads the next section and answers it. It says whether the section was whole.
fn one(rt: &(impl Print + Input), t: &mut Tally) -> io::Result<bool> {
    let mut head = [0; 5];
    read_full(rt, &mut head)?;
    let [order, names, names_high, strings, strings_high] = head;
    let order = if order == 0 {
        RunTimeEndian::Little
    } else {
        RunTimeEndian::Big
    };
    let mut section = [0; 4096];
    let Some(section) = fill(rt, &mut section, [names, names_high])? else {
        return Ok(false);
    };
    let mut debug_str = [0; 4096];
    let Some(strings) = fill(rt, &mut debug_str, [strings, strings_high])? else {
        return Ok(false);
    };
    let on = Lent {
        order,
        section,
        strings,
    };
    header_steps::headers(rt, on, t)?;
    queries::ask(rt, on, 0, 0, 0, t)?;
    Ok(true)
}

// Reads as many bytes as the length says, to the start of a buffer. There are none where the input, or the buffer, is too short.
fn fill<'a>(
    rt: &impl Input,
    buffer: &'a mut [u8],
    length: [u8; 2],
) -> io::Result<Option<&'a [u8]>> {
    let len = u16::from_le_bytes(length) as usize;
    let Some(part) = buffer.get_mut(..len) else {
        return Ok(None);
    };
    let count = read_full(rt, part)?;
    Ok(if count == len { Some(part) } else { None })
}
