// What a caller in C, C++ or Rust hands in: a byte order, an index and a hash cursor, each of numbers, and what they stand for. The
// exported functions are in `debug_names`, which stands on this crate; include/debug_names.h declares both.
//
// A byte order is a number, 0 for little and any other for big. An index is a handle of numbers: whatever they are, it stands for an index,
// and one whose format is neither 4 nor 8 stands for an index that fits no section.
#![tactic(auto)]

ghost use Rattle.std.specs.Prelude.{◌≡◌};
ghost use Rattle.handles.specs.Handles.{order_of, index_from, handle_of, iter_from, cursor_from};

use hashes::{NameBucketIter, NameHashIter};
use headers::NameIndexHeader;
use index::NameIndex;
use reader::{Format, NameTableIndex, RunTimeEndian};

// An index, as a handle: where its parts begin and its pool ends, its counts, and the bytes of its words (4 or 8). The fields are in groups of
// 16 bytes, as callers copy them: a load that takes of two such copies waits for both.
#[repr(C)]
#[derive(Clone, Copy, Default)]
pub struct DebugNamesIndex {
    pub begin: usize,
    pub end: usize,
    pub compile_unit_count: u32,
    pub local_type_unit_count: u32,
    pub foreign_type_unit_count: u32,
    pub bucket_count: u32,
    pub name_count: u32,
    pub abbrev_table_size: u32,
    pub format: u32,
}

// A hash cursor: the hash, whether it holds a bucket cursor (0 is no), the bucket, and the name to examine next. It crosses to C, which has no `Option`.
#[repr(C)]
#[derive(Clone, Copy, Default)]
pub struct DebugNamesHashCursor {
    pub hash: u32,
    pub has_bucket: u32,
    pub bucket: u32,
    pub name: NameTableIndex,
}

// The byte order of a number: 0 is little, any other is big. (A `From` can't be written here, since both types are of other crates.)
#[tactic(auto, unfolding(crate::specs::Handles::order_of))]
pub fn order_of(order: u32) -> RunTimeEndian
    ensures { result ≡ order_of order }
{
    if order == 0 {
        return RunTimeEndian::Little;
    }
    RunTimeEndian::Big
}

impl From<DebugNamesIndex> for NameIndex {
    ghost from_gives = { λ h index. index ≡ index_from h };

    // The index that a handle stands for: in a format that is none, one that ends before it begins, and so fits no section.
    #[tactic(auto, unfolding(crate::specs::Handles::index_from, crate::specs::Handles::with_format, crate::specs::Handles::misfit, index::specs::Layout::no_index))]
    fn from(h: DebugNamesIndex) -> NameIndex {
        let format = match h.format {
            4 => Format::Dwarf32,
            8 => Format::Dwarf64,
            _ => {
                return NameIndex {
                    begin: 1,
                    ..NameIndex::default()
                };
            }
        };
        NameIndex {
            format,
            compile_unit_count: h.compile_unit_count,
            local_type_unit_count: h.local_type_unit_count,
            foreign_type_unit_count: h.foreign_type_unit_count,
            bucket_count: h.bucket_count,
            name_count: h.name_count,
            abbrev_table_size: h.abbrev_table_size,
            begin: h.begin,
            end: h.end,
        }
    }
}

impl From<NameIndexHeader> for DebugNamesIndex {
    ghost from_gives = { λ header h. h ≡ handle_of header };

    // The handle of the index that a header describes.
    #[tactic(auto, unfolding(crate::specs::Handles::handle_of))]
    fn from(header: NameIndexHeader) -> DebugNamesIndex {
        DebugNamesIndex {
            begin: header.content.at,
            end: header.content.end,
            format: header.format.word_size() as u32,
            compile_unit_count: header.compile_unit_count,
            local_type_unit_count: header.local_type_unit_count,
            foreign_type_unit_count: header.foreign_type_unit_count,
            bucket_count: header.bucket_count,
            name_count: header.name_count,
            abbrev_table_size: header.abbrev_table_size,
        }
    }
}

impl From<DebugNamesHashCursor> for NameHashIter {
    ghost from_gives = { λ c iter. iter ≡ iter_from c };

    // The hash cursor that a caller's numbers stand for.
    #[tactic(auto, unfolding(crate::specs::Handles::iter_from))]
    fn from(c: DebugNamesHashCursor) -> NameHashIter {
        if c.has_bucket == 0 {
            return NameHashIter {
                bucket_iter: None,
                hash: c.hash,
            };
        }
        NameHashIter {
            bucket_iter: Some(NameBucketIter {
                name_table_index: c.name,
                bucket_index: c.bucket,
            }),
            hash: c.hash,
        }
    }
}

impl From<NameHashIter> for DebugNamesHashCursor {
    ghost from_gives = { λ iter c. c ≡ cursor_from iter };

    // The numbers of a hash cursor.
    #[tactic(auto, unfolding(crate::specs::Handles::cursor_from, crate::specs::Handles::no_cursor))]
    fn from(iter: NameHashIter) -> DebugNamesHashCursor {
        match iter.bucket_iter {
            Some(b) => DebugNamesHashCursor {
                hash: iter.hash,
                has_bucket: 1,
                bucket: b.bucket_index,
                name: b.name_table_index,
            },
            None => DebugNamesHashCursor {
                hash: iter.hash,
                ..DebugNamesHashCursor::default()
            },
        }
    }
}
