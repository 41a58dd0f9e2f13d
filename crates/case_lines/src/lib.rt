// One reader of the texts that the test programs are given on standard input: a case on each line.
//
//     # a remark
//     =A 69000000 05000000     # a section with a name, a capital letter; its bytes go on in the lines below that begin with a space
//        01 2e 00 'abc' 00
//     xL the name of the case; A; 4 7; 44=3
//
// A case begins with letters, and behind them and a space stands its name. Then come its parts, behind semicolons: bytes, numbers in decimal
// digits, and changes, a place and a byte, with any sign between them. Which letters and parts there are is the program's own. Bytes are pairs
// of hexadecimal digits, text between two quotes, and names of sections, in any order. Parts at the end of a line may be missing.
//
// A section has at most 512 bytes, a part 24 numbers, and a line 12 changes: what is more is not read.
#![tactic(auto)]

mod bytes; // the bytes of a part
mod numbers; // the numbers of a part

pub use bytes::Bytes;
pub use numbers::{Numbers, numbers_of};
use reader::{Format, RunTimeEndian};
use std::io;

// A case: the text, which says what the names of sections stand for, and its line.
#[derive(Clone, Copy)]
pub struct Case<'a> {
    text: &'a [u8],
    line: &'a [u8],
}

// Does something with each case of a text, up to the first that fails.
pub fn each<'a, F: FnMut(Case<'a>) -> io::Result<()> + Drop>(
    text: &'a [u8],
    mut one: F,
) -> io::Result<()>
    requires { F.IsAlwaysCallable one }
{
    for line in text.split(|b| *b == b'\n') {
        let case = Case { text, line };
        match case.letter(0) {
            b'#' | b'=' | b' ' => {}
            _ => one(case)?,
        }
    }
    Ok(())
}

impl<'a> Case<'a> {
    // The whole line.
    pub fn line(self) -> &'a [u8] {
        self.line
    }

    // The letter at a position, or a space where there is none.
    pub fn letter(self, position: usize) -> u8 {
        self.line.get(position).copied().unwrap_or(b' ')
    }

    // The part behind so many semicolons, without the space before it.
    pub fn part(self, number: usize) -> &'a [u8] {
        let part = self.line.split(|b| *b == b';').nth(number).unwrap_or(b"");
        if number == 0 {
            return part;
        }
        part.strip_prefix(b" ").unwrap_or(part)
    }

    // The name of the case, which stands behind its letters and a space.
    pub fn title(self) -> &'a [u8] {
        self.part(0).splitn(2, |b| *b == b' ').nth(1).unwrap_or(b"")
    }

    // The numbers of a part.
    pub fn numbers(self, part: usize) -> Numbers {
        numbers_of(self.part(part))
    }

    // The byte order that the second letter stands for: B for big-endian.
    pub fn order(self) -> RunTimeEndian {
        if self.letter(1) == b'B' {
            RunTimeEndian::Big
        } else {
            RunTimeEndian::Little
        }
    }

    // The format that a letter stands for: 6 for 64-bit.
    pub fn format(self, position: usize) -> Format {
        if self.letter(position) == b'6' {
            Format::Dwarf64
        } else {
            Format::Dwarf32
        }
    }

    // The bytes of a part, with the changes of another.
    pub fn changed<'b>(self, part: usize, changes: usize, to: &'b mut Bytes) -> &'b [u8] {
        let count = bytes::bytes_of(self.text, self.part(part), to);
        bytes::change(to, self.numbers(changes));
        bytes::first(to, count)
    }

    // The bytes of a part.
    pub fn bytes<'b>(self, part: usize, to: &'b mut Bytes) -> &'b [u8] {
        let count = bytes::bytes_of(self.text, self.part(part), to);
        bytes::first(to, count)
    }

    // The line that says what a name stands for.
    pub fn named(self, name: u8) -> Case<'a> {
        Case {
            text: self.text,
            line: bytes::named(self.text, name),
        }
    }
}
