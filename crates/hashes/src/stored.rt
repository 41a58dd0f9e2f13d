// The hash that is stored for a name.
ghost use Rattle.std.specs.Prelude.{◌≡◌};
ghost use Rattle.reader.specs.Answers.{outcome};
ghost use Rattle.hashes.specs.Table.{name_hash};

use index::Parts;
use reader::{Error, NameTableIndex, RunTimeEndian, read_number, skip};

// The hash of a name of the index whose parts are `p`; none where that has no hash table.
#[tactic(auto, unfolding(crate::specs::Table::name_hash))]
pub fn name_hash(
    order: RunTimeEndian,
    section: &[u8],
    p: Parts,
    name: NameTableIndex,
) -> Result<Option<u32>, Error>
    ensures { outcome result ≡ name_hash order section.now p name }
{
    if p.index.bucket_count == 0 {
        return Ok(None);
    }
    let end = p.name_table_data;
    let place = skip(4 * (name.0 as usize), section, p.hash_table_data, end)?;
    let r = read_number::<u32>(order, section, place, end)?;
    Ok(Some(r.value))
}
