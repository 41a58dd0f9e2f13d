// Reads standard input into a buffer, for the programs.
#![tactic(auto)]

ghost use Rattle.std.specs.Prelude.{◌≤◌, length, IfOk};

use std::io;
use std::io::Read;

// Reads standard input until the bytes are full or the input ends, and says how many were read.
pub fn read_full(rt: &impl Input, bytes: &mut [u8]) -> io::Result<usize>
    ensures { IfOk result (λ n. n ≤ length bytes.new) }
{
    let mut input = rt.reader();
    let mut at = 0;
    while at < bytes.len() {
        let count = input.read(&mut bytes[at..])?;
        if count == 0 {
            return Ok(at);
        }
        at += count;
    }
    Ok(at)
}
