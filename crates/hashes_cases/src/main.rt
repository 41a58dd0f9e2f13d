// Document 01's cases for buckets, hashes and the table check, and those of document 02, No. 2, for the names that a table loses. The file stdin
// beside src/ has the cases, one on each line, with what their parts are; the file stdout has what the documents say, worked out from their words
// and the numbers of the lines.
#![tactic(auto)]

mod calls; // lookups, steps and the check, a line for each
mod tables_of; // tables that a line describes by their numbers

use calls::On;
use case_calls::index_of;
use case_lines::Case;
use standard_input::read_full;
use std::io;

fn main(rt: HostRuntime) -> io::Result<()> {
    let mut text = [0; 65536];
    let len = read_full(&rt, &mut text)?;
    case_lines::each(&text[..len], |case| match case.letter(0) {
        b'a' => section(&rt, case),
        _ => tables_of::table(&rt, case),
    })
}

// A case whose section is given, with the bytes that it changes.
fn section(rt: &impl Print, case: Case) -> io::Result<()> {
    let mut bytes = [0; 512];
    let section = case.changed(1, 3, &mut bytes);
    let on = On {
        order: case.order(),
        section,
        index: index_of(case, section),
    };
    rt.write_all(case.title())?;
    rt.write_all(b"\n")?;
    on.lookups(rt, on.index.bucket_count, case.numbers(4))
}
