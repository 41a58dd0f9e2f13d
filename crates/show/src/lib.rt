// Writes every answer of the library to standard output, for the test programs. What is written is tested by the programs' stdout files, and
// not proved. An answer stands behind a space, and the end of its line is the caller's.
#![tactic(auto)]

mod facts; // entries and what is told of them
mod layout; // headers, indexes and abbreviations
mod lookups; // buckets, hashes, the table check and records
mod reads; // bytes, numbers and strings
mod units; // units, names and their offsets

pub use lookups::Named;
use reader::{Error, Step};
pub use reads::Marked;
use std::io;

// The two styles of the stored outputs: that of the case programs (" ok 256", " ok none", " ok end"), and that of the replay of whole sections
// (" 256", " -", " end").
#[derive(Clone, Copy, PartialEq)]
pub enum Style {
    Case,
    Replay,
}

impl Style {
    // What stands before an answer that is no refusal.
    fn ok(self, rt: &impl Print) -> io::Result<()> {
        self.word(rt, b" ok", b"")
    }

    // A word of its own in each style.
    fn word(self, rt: &impl Print, case: &[u8], replay: &[u8]) -> io::Result<()> {
        match self {
            Style::Case => rt.write_all(case),
            Style::Replay => rt.write_all(replay),
        }
    }
}

// What can be shown: a part of an answer, or a whole answer.
pub trait Show {
    fn show(&self, rt: &impl Print, style: Style) -> io::Result<()>;
}

// What a call answered, or its refusal, with its number and value.
impl<T: Show> Show for Result<T, Error> {
    fn show(&self, rt: &impl Print, style: Style) -> io::Result<()> {
        match self {
            Ok(v) => {
                style.ok(rt)?;
                v.show(rt, style)
            }
            Err(e) => e.show(rt, style),
        }
    }
}

impl Show for Error {
    fn show(&self, rt: &impl Print, _style: Style) -> io::Result<()> {
        print!(rt; " refused {} {}", self.number(), self.value())
    }
}

impl<T: Show> Show for Option<T> {
    fn show(&self, rt: &impl Print, style: Style) -> io::Result<()> {
        match self {
            Some(v) => v.show(rt, style),
            None => style.word(rt, b" none", b" -"),
        }
    }
}

// An answer that says nothing but that there was no refusal.
impl Show for () {
    fn show(&self, _rt: &impl Print, _style: Style) -> io::Result<()> {
        Ok(())
    }
}

// A step; the case programs show the cursor after it, too.
impl<T: Show, C: Show> Show for Step<T, C> {
    fn show(&self, rt: &impl Print, style: Style) -> io::Result<()> {
        if self.answer.is_ok() {
            style.ok(rt)?;
        }
        next(rt, style, &self.answer)?;
        if style == Style::Case {
            rt.write_all(b" cursor")?;
            self.cursor.show(rt, style)?;
        }
        Ok(())
    }
}

// What a step answered, or that there is no more.
pub fn next<T: Show>(
    rt: &impl Print,
    style: Style,
    answer: &Result<Option<T>, Error>,
) -> io::Result<()> {
    match answer {
        Ok(Some(v)) => v.show(rt, style),
        Ok(None) => rt.write_all(b" end"),
        Err(e) => e.show(rt, style),
    }
}

// Numbers, each behind a space.
pub fn numbers(rt: &impl Print, all: &[u64]) -> io::Result<()> {
    for n in all {
        print!(rt; " {n}")?;
    }
    Ok(())
}
