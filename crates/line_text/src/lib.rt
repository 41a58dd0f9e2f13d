// The text of a listing's lines (SPECIFICATION 13.1 and 13.2): which bytes stand in the line of an index, of a name and of a refusal, and in the last
// line. specs/Text.antt says which bytes they are.
#![tactic(auto)]

ghost use Rattle.std.specs.Prelude.{◌+◌, ◌≡◌, [], length, Some};
ghost use Rattle.line_text.specs.Text.{decimal, or_dash, index_text, name_text, line_text, refused_text, text_of};
ghost use Rattle.line_text.specs.Room.{shown, Room, Behind};

use itoa::Buffer;
use listing::{IndexLine, Line, NameLine};
use reader::Error;
use std::fmt::{self, InlineText, Write};

// The text of a line. No line is longer than 89 bytes, so there is room for it, and what is written is never cut.
#[derive(Clone, Copy)]
pub struct LineText(InlineText<128>);

impl LineText {
    // No text.
    pub fn empty() -> LineText
        ensures { (Room result 128) × (shown result ≡ []) }
    {
        LineText(InlineText::new())
    }

    // The bytes of the text.
    pub fn bytes(&self) -> &[u8]
        ensures { result.now ≡ shown self.now }
    {
        self.0.as_str().as_bytes()
    }

    // Puts a word behind the text.
    fn word(&mut self, word: &str)
        requires { Room self.old (length word.now) }
        ensures { Behind self.old self.new word.now (length word.now) }
    {
        let _ = self.0.write_str(word); // it is `Ok`, since there is room
    }

    // Puts the digits of a number behind the text.
    fn number(&mut self, number: u64)
        requires { Room self.old 20 }
        ensures { Behind self.old self.new (decimal number) 20 }
    {
        let mut digits = Buffer::new();
        self.word(digits.format(number));
    }

    // Puts a number that may be missing behind the text: a "-" stands in its place.
    fn or_dash(&mut self, number: Option<u32>)
        requires { Room self.old 20 }
        ensures { Behind self.old self.new (or_dash number) 20 }
    {
        match number {
            Some(number) => self.number(number as u64),
            None => self.word("-"),
        }
    }
}

// The line of an index.
fn index_text(line: IndexLine) -> LineText
    ensures { (shown result ≡ index_text line) × Room result 0 }
{
    let (place, names, buckets) = (line.place.0, line.name_count, line.bucket_count);
    let mut text = LineText::empty();
    text.word("index ");
    text.number(place as u64);
    text.word(" names ");
    text.number(names as u64);
    text.word(" buckets ");
    text.number(buckets as u64);
    text.word(" missed ");
    text.or_dash(line.missed);
    text.word("\n");
    text
}

// The line of a name.
fn name_text(line: NameLine) -> LineText
    ensures { (shown result ≡ name_text line) × Room result 0 }
{
    let (name, string, entries) = (line.name.0, line.string.0, line.entries);
    let mut text = LineText::empty();
    text.word("name ");
    text.number(name as u64);
    text.word(" hash ");
    text.or_dash(line.hash);
    text.word(" string ");
    text.number(string as u64);
    text.word(" entries ");
    text.number(entries as u64);
    text.word("\n");
    text
}

// The text of a line.
pub fn line_text(line: Line) -> LineText
    ensures { (shown result ≡ line_text line) × Room result 0 }
{
    match line {
        Line::Index(line) => index_text(line),
        Line::Name(line) => name_text(line),
        Line::Indexes(count) => {
            let mut text = LineText::empty();
            text.word("indexes ");
            text.number(count as u64);
            text.word("\n");
            text
        }
    }
}

// The text of a refusal, by its number.
pub fn refused_text(number: u8) -> LineText
    ensures { (shown result ≡ refused_text number) × Room result 0 }
{
    let mut text = LineText::empty();
    text.word("refused ");
    text.number(number as u64);
    text.word("\n");
    text
}

// What a step of the listing prints: a line, or the refusal in its place, by its number.
impl From<Result<Line, Error>> for LineText {
    ghost from_gives = { λ answer text. (shown text ≡ text_of answer) × Room text 0 };

    fn from(answer: Result<Line, Error>) -> LineText {
        match answer {
            Ok(line) => line_text(line),
            Err(error) => refused_text(error.number()),
        }
    }
}

impl fmt::Display for LineText {
    ghost output = { λ t. Some (shown t) };

    fn fmt<W: fmt::Write>(&self, f: &mut fmt::Formatter<W>) -> fmt::Result {
        f.write_str(self.0.as_str())
    }
}
