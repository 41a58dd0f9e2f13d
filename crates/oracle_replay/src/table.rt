// The abbreviations of an index by their codes: the tag, and name and form of each attribute.
use crate::tally::Tally;
use abbreviations::{NameAbbreviation, read_attribute};
use index::NameIndex;
use names::get_abbreviation;
use std::io;

// A search for each of the codes that gimli was asked for.
pub fn abbreviations(rt: &impl Print, s: &[u8], index: NameIndex, t: &mut Tally) -> io::Result<()> {
    for code in [0, 1, 2, 3, 127, 128, 300, u64::MAX] {
        t.call_of(rt, b"abbreviation", code)?;
        let found = get_abbreviation(s, index, code);
        match found {
            Ok(Some(d)) => declaration(rt, s, d, t)?,
            _ => t.answer(rt, &found)?,
        }
    }
    Ok(())
}

// The tag of a declaration and its pairs; the closing pair is not shown. A pair has bytes, so that there are no more pairs than bytes.
fn declaration(rt: &impl Print, s: &[u8], d: NameAbbreviation, t: &mut Tally) -> io::Result<()> {
    print!(rt; " {}", d.tag)?;
    let mut at = d.attributes;
    for _ in d.attributes..d.next {
        let read = read_attribute(s, at, d.next);
        match read {
            Ok(a) => {
                if a.name == 0 {
                    break;
                }
                print!(rt; " {}:{}", a.name, a.form)?;
                at = a.next;
            }
            Err(_) => {
                t.answer(rt, &read)?;
                break;
            }
        }
    }
    rt.write_all(b"\n")
}
