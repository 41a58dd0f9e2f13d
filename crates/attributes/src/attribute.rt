// What is kept of the first attribute of a name, and what it says (gimli's methods of `NameAttribute`): a wrong form is refused with 12
// and the form, and where no attribute has the name, the answer is none.
ghost use Rattle.std.specs.Prelude.{◌≡◌};
ghost use Rattle.reader.specs.Answers.{outcome};
ghost use Rattle.attributes.specs.Meaning.{unit_number, die_offset_of, parent_of, type_hash_of};

use forms::NameAttributeValue;
use forms::NameAttributeValue::{Flag, Offset, Unsigned};
use reader::{Error, NameEntryOffset, UnitOffset};

// The first attribute of a name, as it is kept: its form and its value.
#[derive(Clone, Copy)]
pub struct FirstAttribute {
    pub form: u16,
    pub value: NameAttributeValue,
}

// The parent of an entry.
#[derive(Clone, Copy)]
pub enum EntryParent {
    // The parent is the entry at this offset.
    Entry(NameEntryOffset),
    // The entry has no parent in the index.
    NoParent,
    // Whether it has one is not known: no attribute says so.
    NotKnown,
}

// The most that the number of a unit may be. (By its name, and compared: `u32::try_from` with the refusal of its own is no plainer.)
const LAST_UNIT: u64 = 4294967295;

// The number of a unit: unsigned, and at most 4,294,967,295, else 11.
#[tactic(auto, unfolding(crate::specs::Meaning::unit_number, crate::specs::Meaning::unit_number_in))]
pub fn unit_number(first: Option<FirstAttribute>) -> Result<Option<u32>, Error>
    ensures { outcome result ≡ unit_number first }
{
    let Some(a) = first else {
        return Ok(None);
    };
    match a.value {
        Unsigned(n) => {
            if LAST_UNIT < n {
                return Err(Error::InvalidNameAttributeIndex(n));
            }
            Ok(Some(n as u32))
        }
        Offset(_) | Flag(_) => Err(Error::UnsupportedAttributeForm(a.form)),
    }
}

// The offset of a DIE.
#[tactic(auto, unfolding(crate::specs::Meaning::die_offset_of, crate::specs::Meaning::die_offset_in))]
pub fn die_offset(first: Option<FirstAttribute>) -> Result<Option<UnitOffset>, Error>
    ensures { outcome result ≡ die_offset_of first }
{
    let Some(a) = first else {
        return Ok(None);
    };
    match a.value {
        Offset(n) => Ok(Some(UnitOffset(n))),
        Unsigned(_) | Flag(_) => Err(Error::UnsupportedAttributeForm(a.form)),
    }
}

// The parent: an offset, or a flag that is true where there is none.
#[tactic(auto, unfolding(crate::specs::Meaning::parent_of, crate::specs::Meaning::parent_in))]
pub fn parent(first: Option<FirstAttribute>) -> Result<EntryParent, Error>
    ensures { outcome result ≡ parent_of first }
{
    let Some(a) = first else {
        return Ok(EntryParent::NotKnown);
    };
    match a.value {
        Offset(n) => Ok(EntryParent::Entry(NameEntryOffset(n))),
        Flag(true) => Ok(EntryParent::NoParent),
        Flag(false) | Unsigned(_) => Err(Error::UnsupportedAttributeForm(a.form)),
    }
}

// The hash of a type: any unsigned number.
#[tactic(auto, unfolding(crate::specs::Meaning::type_hash_of, crate::specs::Meaning::type_hash_in))]
pub fn type_hash(first: Option<FirstAttribute>) -> Result<Option<u64>, Error>
    ensures { outcome result ≡ type_hash_of first }
{
    let Some(a) = first else {
        return Ok(None);
    };
    match a.value {
        Unsigned(n) => Ok(Some(n)),
        Offset(_) | Flag(_) => Err(Error::UnsupportedAttributeForm(a.form)),
    }
}
