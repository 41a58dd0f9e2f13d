// The byte order of a section (gimli's endianity.rs), the caller's choice in each call.

// Byte order that is selectable at run time.
#[derive(Clone, Copy)]
pub enum RunTimeEndian {
    // The first byte is the lowest.
    Little,
    // The first byte is the highest.
    Big,
}
