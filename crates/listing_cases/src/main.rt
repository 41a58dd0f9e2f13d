// Listings of sections with one thing changed, or two (SPECIFICATION 13): what each line can be refused by, what stands in its place,
// and which refusal comes first. The file stdin beside src/ has the cases, one on each line of its first 8,192 bytes, with what their letters and
// parts are, and behind them the longest section that the listing program takes; the file stdout is worked out by hand from document 01.
#![tactic(auto)]

use case_lines::Case;
use standard_input::read_full;
use std::io;

fn main(rt: HostRuntime) -> io::Result<()> {
    let mut text = [0; 8192];
    let len = read_full(&rt, &mut text)?;
    case_lines::each(&text[..len], |case| one(&rt, case))
}

// A case: its name on a line of its own, and the listing of its section, with the bytes that it changes, or of what is left of standard input.
fn one(rt: &(impl Print + Input), case: Case) -> io::Result<()> {
    let mut bytes = [0; 512];
    rt.write_all(case.title())?;
    rt.write_all(b"\n")?;
    match case.letter(0) {
        b'l' => printing::print_listing(rt, case.changed(1, 2, &mut bytes)),
        _ => printing::list_input(rt),
    }
}
