// The candidates that match: those whose string is the name that is asked for, byte for byte.
// (order, section, strings, hash, name) stay parameters: with a struct that lends slices, contracts are no plainer (docs/DECISIONS.md).
ghost use Rattle.std.specs.Prelude.{◌≡◌};
ghost use Rattle.reader.specs.Answers.{outcome};
ghost use Rattle.reader.specs.Listing.{left_by};
ghost use Rattle.index.specs.Inner.{PartsFit};
ghost use Rattle.index_query.specs.Matching.{name_matches};
ghost use Rattle.index_query.specs.Inner.{matches_from, matches_left};

use crate::candidates::{Candidate, next_candidate};
use index::Parts;
use names::name_string_in;
use reader::{Error, NameTableIndex, RunTimeEndian};

// Whether the string of a name of the index is `name`. A string that cannot be read is refused.
#[tactic(auto, using(crate::proofs::MatchLaws::string_inside, crate::proofs::MatchLaws::text_other, crate::proofs::MatchLaws::same_pointwise), unfolding(crate::specs::Matching::name_matches, crate::specs::Matching::text_is))]
pub fn name_matches(
    order: RunTimeEndian,
    section: &[u8],
    strings: &[u8],
    name: &[u8],
    p: Parts,
    candidate: NameTableIndex,
) -> Result<bool, Error>
    ensures { outcome result ≡ name_matches order section.now strings.now name.now p candidate.0 }
{
    let string = name_string_in(order, section, strings, p, candidate)?;
    if string.len != name.len() {
        return Ok(false);
    }
    Ok(&strings[string.start..string.start + string.len] == name)
}

// The first name that matches among the candidates from a number on.
#[tactic(auto, using(crate::proofs::MatchLaws::name_found, crate::proofs::MatchLaws::name_passed, crate::proofs::MatchLaws::name_refused, crate::proofs::MatchLaws::matches_none, crate::proofs::MatchLaws::fewer_left))]
pub fn next_match(
    order: RunTimeEndian,
    section: &[u8],
    strings: &[u8],
    hash: u32,
    name: &[u8],
    p: Parts,
    from: u32,
) -> Result<Option<Candidate>, Error>
    requires { PartsFit section.now p }
    ensures { left_by result (matches_left order section.now strings.now hash name.now p) ≡ matches_from order section.now strings.now hash name.now p from }
{
    let mut at = from;
    while let Some(candidate) = next_candidate(order, section, hash, p, at) {
        if name_matches(order, section, strings, name, p, candidate.name)? {
            return Ok(Some(candidate));
        }
        at = candidate.next;
    }
    Ok(None)
}
