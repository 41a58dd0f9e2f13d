// Document 01's cases for the section query ("The section query"), and document 02's for padded numbers and for entries with two units. The file
// stdin beside src/ has the cases, one on each line, with what their parts are; the file stdout has what the documents say, worked out by hand.
//
// A query's line has the name of the case and how many records are lent, the total or the refusal, and four records. A record that kept its
// contents is "old"; one that was written has its numbers in brackets.
#![tactic(auto)]

use case_lines::{Case, Numbers};
use lent_records::{Got, Lent, is_old};
use show::{Show, Style};
use standard_input::read_full;
use std::io;

fn main(rt: HostRuntime) -> io::Result<()> {
    let mut text = [0; 65536];
    let len = read_full(&rt, &mut text)?;
    case_lines::each(&text[..len], |case| one(&rt, case))
}

// A case: its section, with the bytes that it changes, its strings, and the name that is asked for.
fn one(rt: &impl Print, case: Case) -> io::Result<()> {
    let mut section = [0; 512];
    let mut strings = [0; 512];
    let mut name = [0; 512];
    let on = Lent {
        order: case.order(),
        section: case.changed(1, 4, &mut section),
        strings: case.bytes(2, &mut strings),
    };
    rooms(rt, case, on, case.bytes(5, &mut name), case.numbers(3))
}

// The query for the hash that is the first of the numbers, lent as many records as each of the others says, at most four.
fn rooms(rt: &impl Print, case: Case, on: Lent, name: &[u8], numbers: Numbers) -> io::Result<()> {
    for room in numbers.values.iter().skip(1).flatten() {
        if *room <= 4 {
            rt.write_all(case.title())?;
            print!(rt; ", room {room}:")?;
            answer(rt, on.query(numbers.get32(0), name, *room as usize))?;
            rt.write_all(b"\n")?;
        }
    }
    Ok(())
}

// What the query answers, and the records.
fn answer(rt: &impl Print, got: Got) -> io::Result<()> {
    match got.answer {
        Ok(total) => print!(rt; " total {total}")?,
        Err(e) => e.show(rt, Style::Case)?,
    }
    for record in got.recs {
        if is_old(record) {
            rt.write_all(b" old")?;
        } else {
            record.show(rt, Style::Case)?;
        }
    }
    Ok(())
}
