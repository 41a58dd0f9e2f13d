// The listing of a section as text (SPECIFICATION 13.3), a line at a step: a program that prints what the steps give, up to the first that
// gives nothing, prints the text of the section's listing.
#![tactic(auto)]

ghost use Rattle.std.specs.Prelude.{◌≡◌, IfSome};
ghost use Rattle.line_text.specs.Room.{Room};
ghost use Rattle.listing_text.specs.Written.{written_of, text_step};

use line_text::LineText;
use listing::ListingIter;
use reader::RunTimeEndian;

// What a step prints, which is nothing where no line follows, and the cursor after it.
#[derive(Clone, Copy)]
pub struct TextStep {
    pub text: Option<LineText>,
    pub cursor: ListingIter,
}

// The next step of the listing of a little-endian section: its line, or the refusal in its place. After a refusal, and after the last line, nothing
// is printed.
#[tactic(auto, unfolding(crate::specs::Written::text_step))]
pub fn next_text(section: &[u8], cursor: ListingIter) -> TextStep
    ensures { (written_of result ≡ text_step section.now cursor) × IfSome result.text (λ t. Room t 0) }
{
    let step = cursor.next(RunTimeEndian::Little, section);
    TextStep {
        text: step.answer.transpose().map(LineText::from),
        cursor: step.cursor,
    }
}
