// The headers of a section, one after another (gimli's `DebugNames` and `NameIndexHeaderIter`; SPECIFICATION 5.1).
ghost use Rattle.std.specs.Prelude.{◌≡◌};
ghost use Rattle.reader.specs.Steps.{step_of};
ghost use Rattle.headers.specs.Headers.{first_header, header_step};

use crate::header::{NameIndexHeader, parse};
use reader::{Error, RunTimeEndian, Step, too_long};

// The lent .debug_names section. gimli's struct holds the section's bytes; here they are lent to each call.
#[derive(Clone, Copy)]
pub struct DebugNames;

// A cursor over the headers of a section: the place of the next one. It fits if that is at most the section's length.
#[derive(Clone, Copy)]
pub struct NameIndexHeaderIter {
    pub at: usize,
}

impl DebugNames {
    // The cursor before the first header.
    // (gimli's call, so no `Default`.)
    #[tactic(auto, unfolding(crate::specs::Headers::first_header))]
    pub fn headers() -> NameIndexHeaderIter
        ensures { result ≡ first_header }
    {
        NameIndexHeaderIter { at: 0 }
    }
}

impl NameIndexHeaderIter {
    // The next header; none at the section's end. After a refusal the cursor is at the section's end, so that the next step is the end;
    // after 13 and 14 it is as it was.
    pub fn next(
        self,
        order: RunTimeEndian,
        section: &[u8],
    ) -> Step<NameIndexHeader, NameIndexHeaderIter>
        ensures { step_of result.answer result.cursor ≡ header_step order section.now self }
    {
        let mut cursor = self;
        let answer = cursor.advance(order, section);
        Step { answer, cursor }
    }

    // The same step of the cursor itself, so that a refusal can go up by `?`.
    #[tactic(auto, unfolding(crate::specs::Headers::header_step, crate::specs::Headers::after_header))]
    fn advance(
        &mut self,
        order: RunTimeEndian,
        section: &[u8],
    ) -> Result<Option<NameIndexHeader>, Error>
        ensures { step_of result self.new ≡ header_step order section.now self.old }
    {
        if too_long(section) {
            return Err(Error::SectionTooLong);
        }
        let at = self.at;
        if section.len() < at {
            return Err(Error::DoesNotFit);
        }
        if at == section.len() {
            return Ok(None);
        }
        self.at = section.len();
        let header = parse(order, section, at)?;
        self.at = header.content.end;
        Ok(Some(header))
    }
}
