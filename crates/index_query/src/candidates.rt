// The candidates of a hash in an index: the names that `find_by_hash` lists up to the first end; without a hash table all names. A number
// stands for the candidates from that name on.
// (order, section, ..) stay parameters: with a struct that lends the section, contracts are no plainer (docs/DECISIONS.md).
ghost use Rattle.std.specs.Prelude.{◌≡◌};
ghost use Rattle.reader.specs.Answers.{outcome_as};
ghost use Rattle.index.specs.Inner.{PartsFit};
ghost use Rattle.index_query.specs.Candidates.{candidates};
ghost use Rattle.index_query.specs.Inner.{candidates_from, candidates_left};

use hashes::{bucket_of, first_in_bucket, pass_over};
use index::Parts;
use reader::{Error, NameTableIndex, RunTimeEndian};

// A candidate, with the number from which on the next is looked for. (`Found` of `hashes` may hold no name; here that is the `None` of the answer.)
#[derive(Clone, Copy)]
pub struct Candidate {
    pub name: NameTableIndex,
    pub next: u32,
}

// Where the candidates of a hash begin.
#[tactic(auto, using(crate::proofs::CandidateLaws::all_names, crate::proofs::CandidateLaws::first_from), unfolding(crate::specs::Candidates::candidates))]
pub fn first_candidate(
    order: RunTimeEndian,
    section: &[u8],
    hash: u32,
    p: Parts,
) -> Result<u32, Error>
    requires { PartsFit section.now p }
    ensures { outcome_as (candidates_from order section.now hash p) result ≡ candidates order section.now hash p }
{
    if p.index.bucket_count == 0 {
        return Ok(0);
    }
    let first = first_in_bucket(order, section, p, bucket_of(p.index, hash))?;
    Ok(first.unwrap_or(p.index.name_count))
}

// The first candidate from a number on.
#[tactic(auto, using(crate::proofs::CandidateLaws::no_name, crate::proofs::CandidateLaws::next_name, crate::proofs::CandidateLaws::stored_name, crate::proofs::CandidateLaws::stored_none, crate::proofs::CandidateLaws::has_buckets, crate::proofs::CandidateLaws::hashes_inside))]
pub fn next_candidate(
    order: RunTimeEndian,
    section: &[u8],
    hash: u32,
    p: Parts,
    from: u32,
) -> Option<Candidate>
    requires { PartsFit section.now p }
    ensures { candidates_left order section.now hash p result ≡ candidates_from order section.now hash p from }
{
    let index = p.index;
    if index.bucket_count == 0 {
        if index.name_count <= from {
            return None;
        }
        return Some(Candidate {
            name: NameTableIndex(from),
            next: from + 1,
        });
    }
    let found = pass_over(
        order,
        section,
        index,
        p.hash_table_data,
        bucket_of(index, hash),
        hash,
        from,
    );
    found.name.map(|name| Candidate {
        name: NameTableIndex(name),
        next: found.next,
    })
}
