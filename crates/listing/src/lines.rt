// The lines of a section, one after another.
ghost use Rattle.std.specs.Prelude.{◌≡◌};
ghost use Rattle.reader.specs.Steps.{step_of};
ghost use Rattle.listing.specs.Lines.{first_line, head_step, line_step};

use crate::index_line::{IndexLine, open};
use crate::name::{NameLine, name_line};
use headers::NameIndexHeaderIter;
use index::NameIndex;
use reader::{Error, NameTableIndex, RunTimeEndian, Step};

// A line: an index, a name, or, last, how many indexes were listed.
#[derive(Clone, Copy)]
pub enum Line {
    Index(IndexLine),
    Name(NameLine),
    Indexes(usize),
}

// A cursor over the lines of a section: the place of the next header, how many indexes were listed, the index whose names are being listed
// and the number of the next one, and whether the listing has ended. It fits if no more indexes were listed than there are bytes before
// its place. (An enum of two states would hold these fields in one, and have to be taken apart in each step: no plainer.)
#[derive(Clone, Copy)]
pub struct ListingIter {
    pub at: usize,
    pub listed: usize,
    pub index: NameIndex,
    pub name: NameTableIndex,
    pub done: bool,
}

// The cursor before the first line: no index is open.
// (A name that says what it lists, in place of a `Default`.)
#[tactic(auto, unfolding(crate::specs::Lines::first_line, index::specs::Layout::no_index))]
pub fn section_lines() -> ListingIter
    ensures { result ≡ first_line }
{
    ListingIter {
        at: 0,
        listed: 0,
        index: NameIndex::default(),
        name: NameTableIndex(0),
        done: false,
    }
}

impl ListingIter {
    // The line of the next index, or, after the last, how many there were.
    #[tactic(auto, unfolding(crate::specs::Lines::head_step))]
    fn next_index(&mut self, order: RunTimeEndian, section: &[u8]) -> Result<Option<Line>, Error>
        ensures { step_of result self.new ≡ head_step order section.now self.old }
    {
        self.done = true; // as long as no index follows
        if self.at < self.listed {
            return Err(Error::DoesNotFit);
        }
        let headers = NameIndexHeaderIter { at: self.at };
        let Some(header) = headers.next(order, section).answer? else {
            return Ok(Some(Line::Indexes(self.listed)));
        };
        let opened = open(order, section, header)?;
        *self = ListingIter {
            at: header.content.end,
            listed: self.listed + 1,
            index: opened.index,
            name: NameTableIndex(0),
            done: false,
        };
        Ok(Some(Line::Index(opened.line)))
    }

    // The next line. After the last line, and after a refusal, there is no more.
    pub fn next(self, order: RunTimeEndian, section: &[u8]) -> Step<Line, ListingIter>
        ensures { step_of result.answer result.cursor ≡ line_step order section.now self }
    {
        let mut cursor = self;
        let answer = cursor.advance(order, section);
        Step { answer, cursor }
    }

    // The same step of the cursor itself, so that a refusal can go up by `?`.
    #[tactic(auto, unfolding(crate::specs::Lines::line_step))]
    fn advance(&mut self, order: RunTimeEndian, section: &[u8]) -> Result<Option<Line>, Error>
        ensures { step_of result self.new ≡ line_step order section.now self.old }
    {
        if self.done {
            return Ok(None);
        }
        if self.index.name_count <= self.name.0 {
            return self.next_index(order, section);
        }
        self.done = true; // where the line is refused
        let line = name_line(order, section, self.index, self.name)?;
        self.done = false;
        self.name = NameTableIndex(self.name.0 + 1);
        Ok(Some(Line::Name(line)))
    }
}
