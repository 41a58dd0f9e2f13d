// Document 01's cases for headers, units, names and abbreviations, and document 02's for padding. The file stdin beside src/ has the cases, one
// on each line, with what their letters and parts are; the file stdout has what the documents say, worked out by hand.
#![tactic(auto)]

mod answers; // the answers of a case
mod calls; // calls on an index

use case_lines::Case;
use standard_input::read_full;
use std::io;

fn main(rt: HostRuntime) -> io::Result<()> {
    let mut text = [0; 65536];
    let len = read_full(&rt, &mut text)?;
    case_lines::each(&text[..len], |case| one(&rt, case))
}

// A case: its section, with the bytes that it changes, and what is asked of it.
fn one(rt: &impl Print, case: Case) -> io::Result<()> {
    let mut bytes = [0; 512];
    let section = case.changed(1, 3, &mut bytes);
    match case.letter(0) {
        b'i' | b'm' => calls::calls(rt, case, section),
        b't' => answers::headers(rt, case, section),
        b'v' => answers::names(rt, case, section),
        b'h' => answers::opened(rt, case, section),
        b'f' | b'x' | b'p' | b'n' | b'k' => answers::answer(rt, case, section),
        b'w' => {
            answers::table(rt, case, section)?;
            answers::each(rt, case, section)
        }
        _ => answers::each(rt, case, section),
    }
}
