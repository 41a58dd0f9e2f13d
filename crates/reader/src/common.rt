// The format of an index, and the numbers that keep a type of their own through every call (gimli's common.rs; `UnitOffset`
// is of read/mod.rs, `NameEntryOffset` and `NameTableIndex` are of names.rs).
ghost use Rattle.std.specs.Prelude.{◌≡◌};
ghost use Rattle.reader.specs.Numbers.{word_size};

// Whether lengths and offsets have 4 bytes or 8: DWARF 5, section 7.4.
#[derive(Clone, Copy, Default)]
pub enum Format {
    // 64-bit DWARF: words of 8 bytes.
    Dwarf64,
    // 32-bit DWARF: words of 4 bytes.
    #[default]
    Dwarf32,
}

impl Format {
    // The bytes of a word: 4 or 8.
    pub fn word_size(self) -> u8
        ensures { result ≡ word_size self }
    {
        match self {
            Format::Dwarf32 => 4,
            Format::Dwarf64 => 8,
        }
    }
}

// Numbers that keep a name: each is a struct of its own, so that none stands where another is meant. Those that cross to C cross as their number.

// An offset into the .debug_info section.
#[repr(C)]
#[derive(Clone, Copy)]
pub struct DebugInfoOffset(pub usize);

// An offset into the .debug_names section.
#[derive(Clone, Copy)]
pub struct DebugNamesOffset(pub usize);

// An offset into the .debug_str section.
#[repr(C)]
#[derive(Clone, Copy)]
pub struct DebugStrOffset(pub usize);

// A type signature, as it stands in the foreign type units of an index.
#[derive(Clone, Copy)]
pub struct DebugTypeSignature(pub u64);

// An offset from the start of a unit.
#[repr(C)]
#[derive(Clone, Copy)]
pub struct UnitOffset(pub usize);

// An offset into the entry pool of an index.
#[repr(C)]
#[derive(Clone, Copy)]
pub struct NameEntryOffset(pub usize);

// The number of a name of an index, counted from 0.
#[repr(C)]
#[derive(Clone, Copy, Default)]
pub struct NameTableIndex(pub u32);
