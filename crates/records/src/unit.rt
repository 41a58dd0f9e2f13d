// The unit that is shown of an entry.
ghost use Rattle.std.specs.Prelude.{◌≡◌};
ghost use Rattle.records.specs.Units.{unit_of, of_type_unit};

use names::NameTypeUnit;
use reader::DebugInfoOffset;

// A unit, as a record has it in two plain numbers: kind 1 is a compile unit and 2 a local type unit, both with their offset in .debug_info; 3 is a foreign type unit, with its
// signature; 0 is no unit, with the value 0.
// (Two plain numbers, as they go into a record, which C reads: an enum would be turned into them at once.)
#[derive(Clone, Copy)]
pub struct ShownUnit {
    pub kind: u8,
    pub value: u64,
}

impl ShownUnit {
    // A compile unit, by its offset.
    // (An offset is no more a compile unit's than a type unit's, so no `From`.)
    pub fn compile(offset: DebugInfoOffset) -> ShownUnit
        ensures { result ≡ unit_of 1 offset.0 }
    {
        ShownUnit {
            kind: 1,
            value: offset.0 as u64,
        }
    }
}

impl From<NameTypeUnit> for ShownUnit {
    ghost from_gives = { λ unit shown. shown ≡ of_type_unit unit };

    // A local type unit has kind 2, a foreign one kind 3.
    fn from(unit: NameTypeUnit) -> ShownUnit {
        match unit {
            NameTypeUnit::Local(offset) => ShownUnit {
                kind: 2,
                value: offset.0 as u64,
            },
            NameTypeUnit::Foreign(signature) => ShownUnit {
                kind: 3,
                value: signature.0,
            },
        }
    }
}
