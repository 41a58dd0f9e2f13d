// The listing program (SPECIFICATION 13.4): lists a little-endian .debug_names section from standard input. The files stdin and
// stdout beside src/ are case A and its listing (SPECIFICATION 16.1 and 16.3).
#![tactic(auto)]

use std::io;

fn main(rt: HostRuntime) -> io::Result<()> {
    printing::list_input(&rt)
}
