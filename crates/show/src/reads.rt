// Bytes, numbers and strings.
use crate::{Show, Style, numbers};
use reader::{InitialLength, Part, Read};
use std::io;
use strings::Str;

impl Show for u8 {
    fn show(&self, rt: &impl Print, _style: Style) -> io::Result<()> {
        numbers(rt, &[*self as u64])
    }
}

impl Show for u16 {
    fn show(&self, rt: &impl Print, _style: Style) -> io::Result<()> {
        numbers(rt, &[*self as u64])
    }
}

impl Show for u32 {
    fn show(&self, rt: &impl Print, _style: Style) -> io::Result<()> {
        numbers(rt, &[*self as u64])
    }
}

impl Show for u64 {
    fn show(&self, rt: &impl Print, _style: Style) -> io::Result<()> {
        numbers(rt, &[*self])
    }
}

impl Show for usize {
    fn show(&self, rt: &impl Print, _style: Style) -> io::Result<()> {
        numbers(rt, &[*self as u64])
    }
}

// A flag as 0 or 1.
impl Show for bool {
    fn show(&self, rt: &impl Print, _style: Style) -> io::Result<()> {
        numbers(rt, &[*self as u64])
    }
}

// Some numbers of an answer.
impl<const N: usize> Show for [u64; N] {
    fn show(&self, rt: &impl Print, _style: Style) -> io::Result<()> {
        numbers(rt, self)
    }
}

// A number and the place past it.
impl<N: Show> Show for Read<N> {
    fn show(&self, rt: &impl Print, style: Style) -> io::Result<()> {
        self.value.show(rt, style)?;
        self.next.show(rt, style)
    }
}

// A length, the bytes of a word, and the place past the length.
impl Show for InitialLength {
    fn show(&self, rt: &impl Print, _style: Style) -> io::Result<()> {
        numbers(
            rt,
            &[
                self.length as u64,
                self.format.word_size() as u64,
                self.next as u64,
            ],
        )
    }
}

// A part's place and end.
impl Show for Part {
    fn show(&self, rt: &impl Print, _style: Style) -> io::Result<()> {
        numbers(rt, &[self.at as u64, self.end as u64])
    }
}

// A string's start and length.
impl Show for Str {
    fn show(&self, rt: &impl Print, _style: Style) -> io::Result<()> {
        numbers(rt, &[self.start as u64, self.len as u64])
    }
}

// The bytes of a string, between two marks.
#[derive(Clone, Copy)]
pub struct Marked<'a>(pub &'a [u8]);

impl Show for Marked<'_> {
    fn show(&self, rt: &impl Print, _style: Style) -> io::Result<()> {
        rt.write_all(b" [")?;
        rt.write_all(self.0)?;
        rt.write_all(b"]")
    }
}
