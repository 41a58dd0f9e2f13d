// The listing program on a section that is too long for it: the file stdin beside src/ has 65,537 bytes, all 0, and SPECIFICATION 13.4 asks for the
// one line "refused 13".
#![tactic(auto)]

use std::io;

fn main(rt: HostRuntime) -> io::Result<()> {
    printing::list_input(&rt)
}
