// The header of an index (gimli's `NameIndexHeader::parse`; SPECIFICATION 5.2 to 5.5; DWARF 5, 6.1.1.4.1), in two
// steps: `cut_header` cuts the index's part out by its length, and `parse_body` reads the fields inside that part.
// (s, at, end) stay parameters: with a struct of s and end, as was tried, contracts are no plainer (docs/DECISIONS.md).
ghost use Rattle.std.specs.Prelude.{◌≡◌};
ghost use Rattle.reader.specs.Answers.{outcome};
ghost use Rattle.headers.specs.Header.{header_cut, counts, padding, augmentation, header_body, header};

use reader::{
    DebugNamesOffset, Error, Format, Part, Read, RunTimeEndian, read_initial_length, read_number,
    skip, split,
};

// The part of an index, cut out by its length: where its header begins, its length and format, and the part from the place past
// the length up to the place where the index ends.
#[derive(Clone, Copy)]
pub struct HeaderCut {
    pub offset: DebugNamesOffset,
    pub length: usize,
    pub format: Format,
    pub body: Part,
}

// The counts and sizes of a header, and the place past them.
#[derive(Clone, Copy)]
pub struct Counts {
    pub compile_unit_count: u32,
    pub local_type_unit_count: u32,
    pub foreign_type_unit_count: u32,
    pub bucket_count: u32,
    pub name_count: u32,
    pub abbrev_table_size: u32,
    pub augmentation_string_size: u32,
    pub next: usize,
}

// Where an augmentation string stands: its first byte, and its length without the padding.
#[derive(Clone, Copy)]
pub struct AugmentationString {
    pub place: usize,
    pub len: usize,
}

// The header of an index.
#[derive(Clone, Copy)]
pub struct NameIndexHeader {
    // The section offset of the header.
    pub offset: DebugNamesOffset,
    // The length of the index, without the length field itself.
    pub length: usize,
    pub format: Format,
    // 5.
    pub version: u16,
    // The numbers of compile units, local type units, foreign type units, buckets and names.
    pub compile_unit_count: u32,
    pub local_type_unit_count: u32,
    pub foreign_type_unit_count: u32,
    pub bucket_count: u32,
    pub name_count: u32,
    // The size of the abbreviation table in bytes.
    pub abbrev_table_size: u32,
    pub augmentation_string: Option<AugmentationString>,
    // What follows the header, up to the end of the index.
    pub content: Part,
}

// Cuts out the part of the index whose header begins at a place.
#[tactic(auto, unfolding(crate::specs::Header::header_cut))]
pub fn cut_header(order: RunTimeEndian, section: &[u8], at: usize) -> Result<HeaderCut, Error>
    ensures { outcome result ≡ header_cut order section.now at }
{
    let length = read_initial_length(order, section, at, section.len())?;
    let body = split(length.length, section, length.next, section.len())?;
    Ok(HeaderCut {
        offset: DebugNamesOffset(at),
        length: length.length,
        format: length.format,
        body,
    })
}

// The counts and sizes, one after another.
#[tactic(auto, unfolding(crate::specs::Header::counts))]
fn read_counts(order: RunTimeEndian, s: &[u8], at: usize, end: usize) -> Result<Counts, Error>
    ensures { outcome result ≡ counts order s.now at end }
{
    let c = read_number::<u32>(order, s, at, end)?;
    let l = read_number::<u32>(order, s, c.next, end)?;
    let f = read_number::<u32>(order, s, l.next, end)?;
    let b = read_number::<u32>(order, s, f.next, end)?;
    let n = read_number::<u32>(order, s, b.next, end)?;
    let a = read_number::<u32>(order, s, n.next, end)?;
    let z = read_number::<u32>(order, s, a.next, end)?;
    Ok(Counts {
        compile_unit_count: c.value,
        local_type_unit_count: l.value,
        foreign_type_unit_count: f.value,
        bucket_count: b.value,
        name_count: n.value,
        abbrev_table_size: a.value,
        augmentation_string_size: z.value,
        next: z.next,
    })
}

// The bytes that bring a size to a multiple of 4, by its remainder.
#[tactic(auto, unfolding(crate::specs::Header::padding, crate::specs::Header::padding_for))]
fn padding_of(size: u32) -> usize
    ensures { result ≡ padding size }
{
    let remainder = size % 4;
    match remainder {
        0 => 0,
        1 => 3,
        2 => 2,
        // The remainder is 3.
        _ => 1,
    }
}

// The augmentation of a size, passed over with its padding.
#[tactic(auto, unfolding(crate::specs::Header::augmentation))]
fn read_augmentation(
    size: u32,
    s: &[u8],
    at: usize,
    end: usize,
) -> Result<Read<Option<AugmentationString>>, Error>
    ensures { outcome result ≡ augmentation size s.now at end }
{
    if size == 0 {
        return Ok(Read {
            value: None,
            next: at,
        });
    }
    let string = split(size as usize, s, at, end)?;
    let next = skip(padding_of(size), s, string.end, end)?;
    Ok(Read {
        value: Some(AugmentationString {
            place: string.at,
            len: size as usize,
        }),
        next,
    })
}

// Reads the fields of a header inside the part that was cut out.
#[tactic(auto, unfolding(crate::specs::Header::header_body))]
pub fn parse_body(
    order: RunTimeEndian,
    section: &[u8],
    cut: HeaderCut,
) -> Result<NameIndexHeader, Error>
    ensures { outcome result ≡ header_body order section.now cut }
{
    let end = cut.body.end;
    let version = read_number::<u16>(order, section, cut.body.at, end)?;
    if version.value != 5 {
        return Err(Error::UnknownVersion(version.value));
    }
    let padded = skip(2, section, version.next, end)?;
    let n = read_counts(order, section, padded, end)?;
    let a = read_augmentation(n.augmentation_string_size, section, n.next, end)?;
    Ok(NameIndexHeader {
        offset: cut.offset,
        length: cut.length,
        format: cut.format,
        version: version.value,
        compile_unit_count: n.compile_unit_count,
        local_type_unit_count: n.local_type_unit_count,
        foreign_type_unit_count: n.foreign_type_unit_count,
        bucket_count: n.bucket_count,
        name_count: n.name_count,
        abbrev_table_size: n.abbrev_table_size,
        augmentation_string: a.value,
        content: Part { at: a.next, end },
    })
}

// The header that begins at a place: its part cut out, then its fields.
#[tactic(auto, unfolding(crate::specs::Header::header))]
pub(crate) fn parse(
    order: RunTimeEndian,
    section: &[u8],
    at: usize,
) -> Result<NameIndexHeader, Error>
    ensures { outcome result ≡ header order section.now at }
{
    let cut = cut_header(order, section, at)?;
    parse_body(order, section, cut)
}
