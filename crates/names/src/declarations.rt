// The abbreviation of a code (gimli's `NameIndex::abbreviations` and `NameAbbreviations::get`; SPECIFICATION 8.4).
ghost use Rattle.std.specs.Prelude.{◌≡◌};
ghost use Rattle.reader.specs.Answers.{outcome};
ghost use Rattle.names.specs.Declarations.{get_abbreviation};

use abbreviations::{NameAbbreviation, get};
use index::{NameIndex, fit};
use reader::Error;

// The first declaration of an index's abbreviation table that has a code.
#[tactic(auto, unfolding(crate::specs::Declarations::get_abbreviation))]
pub fn get_abbreviation(
    section: &[u8],
    index: NameIndex,
    code: u64,
) -> Result<Option<NameAbbreviation>, Error>
    ensures { outcome result ≡ get_abbreviation section.now index code }
{
    let p = fit(section, index)?;
    get(section, p.abbreviation_table, p.entry_pool, code)
}
