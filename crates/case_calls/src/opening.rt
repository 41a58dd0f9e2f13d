// The index of a case.
use case_lines::Case;
use headers::DebugNames;
use index::NameIndex;
use reader::RunTimeEndian;

// The index of the numbers C, L, F, B, N, A, begin and end, which are part 2, and of the format of the third letter. Without numbers it is the
// first index of the section, opened; where that is refused, an index that fits no section.
pub fn index_of(case: Case, section: &[u8]) -> NameIndex {
    let n = case.numbers(2);
    if n.values[0].is_none() {
        return opened(case.order(), section).unwrap_or(NameIndex {
            begin: usize::MAX,
            end: usize::MAX,
            ..NameIndex::default()
        });
    }
    NameIndex {
        format: case.format(2),
        compile_unit_count: n.get32(0),
        local_type_unit_count: n.get32(1),
        foreign_type_unit_count: n.get32(2),
        bucket_count: n.get32(3),
        name_count: n.get32(4),
        abbrev_table_size: n.get32(5),
        begin: n.get(6) as usize,
        end: n.get(7) as usize,
    }
}

fn opened(order: RunTimeEndian, section: &[u8]) -> Option<NameIndex> {
    let header = DebugNames::headers().next(order, section).answer.ok()??;
    NameIndex::new(section, header).ok()
}
