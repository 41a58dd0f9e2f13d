// How many sections, refusals of each number, and lines of each call were written; the last lines say it.
use reader::Error;
use show::{Show, Style, next};
use std::io;

// The calls by their words, in the order of the last lines.
const CALLS: [&[u8]; 28] = [
    b"header",
    b"end",
    b"index",
    b"counts",
    b"compile_unit",
    b"local_type_unit",
    b"foreign_type_unit",
    b"type_unit",
    b"default_compile_unit",
    b"names",
    b"string_offset",
    b"string",
    b"abbreviation",
    b"find_by_bucket",
    b"next_in_bucket",
    b"find_by_hash",
    b"next_of_hash",
    b"table",
    b"name_entries",
    b"next",
    b"name_entry",
    b"entry_compile_unit",
    b"entry_type_unit",
    b"die_offset",
    b"parent",
    b"type_hash",
    b"query",
    b"record",
];

// The refusals are counted at their numbers, which are at most 14, and the calls at the places of their words.
#[derive(Drop)]
pub struct Tally {
    sections: u64,
    refusals: [u64; 15],
    calls: [u64; 28],
}

// One more.
fn add(n: &mut u64) {
    *n = n.wrapping_add(1);
}

impl Tally {
    // (Written out, since an array of 28 has no `Default`.)
    pub fn new() -> Tally {
        Tally {
            sections: 0,
            refusals: [0; 15],
            calls: [0; 28],
        }
    }

    // A section.
    pub fn section(&mut self) {
        add(&mut self.sections);
    }

    // A call that has this word.
    pub fn count(&mut self, word: &[u8]) {
        for (n, known) in self.calls.iter_mut().zip(CALLS) {
            if known == word {
                add(n);
            }
        }
    }

    // The first word of a line, by which the line is counted.
    pub fn call(&mut self, rt: &impl Print, word: &[u8]) -> io::Result<()> {
        self.count(word);
        rt.write_all(word)
    }

    // The same with the number that the call was given.
    pub fn call_of(&mut self, rt: &impl Print, word: &[u8], argument: u64) -> io::Result<()> {
        self.call(rt, word)?;
        print!(rt; " {argument}")
    }

    // What a call answered. A refusal is counted.
    pub fn shown<T: Show>(&mut self, rt: &impl Print, answer: &Result<T, Error>) -> io::Result<()> {
        if let Err(e) = answer {
            self.count_refusal(*e);
        }
        answer.show(rt, Style::Replay)
    }

    // The same, at the end of a line.
    pub fn answer<T: Show>(
        &mut self,
        rt: &impl Print,
        answer: &Result<T, Error>,
    ) -> io::Result<()> {
        self.shown(rt, answer)?;
        rt.write_all(b"\n")
    }

    // A line of a call that was given a number.
    pub fn line<T: Show>(
        &mut self,
        rt: &impl Print,
        word: &[u8],
        argument: u64,
        answer: &Result<T, Error>,
    ) -> io::Result<()> {
        self.call_of(rt, word, argument)?;
        self.answer(rt, answer)
    }

    // A line of a step; and whether it gave something.
    pub fn step<T: Show>(
        &mut self,
        rt: &impl Print,
        word: &[u8],
        answer: &Result<Option<T>, Error>,
    ) -> io::Result<bool> {
        self.call(rt, word)?;
        if let Err(e) = answer {
            self.count_refusal(*e);
        }
        next(rt, Style::Replay, answer)?;
        rt.write_all(b"\n")?;
        Ok(matches!(answer, Ok(Some(_))))
    }

    // A refusal.
    pub fn count_refusal(&mut self, e: Error) {
        if let Some(n) = self.refusals.get_mut(e.number() as usize) {
            add(n);
        }
    }

    // The last lines.
    pub fn totals(&self, rt: &impl Print) -> io::Result<()> {
        println!(rt; "sections {}", self.sections)?;
        for number in 1..13 {
            println!(rt; "refused {number} {}", self.refusals[number])?;
        }
        for (n, word) in self.calls.iter().zip(CALLS) {
            rt.write_all(word)?;
            println!(rt; " {n}")?;
        }
        Ok(())
    }
}

// Steps of a cursor: at most `most` up to the first that gives nothing, and then `more` after it. A step says whether it gave something.
pub fn steps<F: FnMut(&mut Tally) -> io::Result<bool> + Drop>(
    t: &mut Tally,
    most: u32,
    more: u32,
    mut step: F,
) -> io::Result<()>
    requires { F.IsAlwaysCallable step }
{
    for _ in 0..most {
        if !step(t)? {
            for _ in 0..more {
                step(t)?;
            }
            break;
        }
    }
    Ok(())
}
