// The abbreviation table of a name index (gimli's `NameAbbreviations`; SPECIFICATION 8; DWARF 5, 6.1.1.4.7): declarations one
// after another, each a code, a tag and pairs of name and form.
//
// gimli keeps the declarations in a `Vec`; here they are read again from the bytes at each call. A table is a part of the section,
// from a place `at` up to `end`, as everywhere in `reader`: any numbers are legal arguments.
// (s, at, end) stay parameters: with a struct of s and end, as was tried, contracts are no plainer (docs/DECISIONS.md).
#![tactic(auto)]

ghost use Rattle.std.specs.Prelude.{◌≡◌};
ghost use Rattle.reader.specs.Answers.{outcome};
ghost use Rattle.abbreviations.specs.Abbreviations.{pair, head, parsed, found};
ghost use Rattle.abbreviations.specs.Inner.{short_pair, is_short, attributes_end, declared};

use reader::{Error, is_empty, read_u8};

// A pair of name and form, and the place past it. Name and form are both 0 in the pair that closes a declaration, and both not
// 0 in every other.
#[derive(Clone, Copy)]
pub struct ReadAttribute {
    pub name: u16,
    pub form: u16,
    pub next: usize,
}

// The code and the tag of a declaration, and the place past them.
#[derive(Clone, Copy)]
pub struct Head {
    pub code: u64,
    pub tag: u16,
    pub next: usize,
}

// A declaration: its code, its tag, the place of its pairs of name and form, and the place past them.
#[derive(Clone, Copy)]
pub struct NameAbbreviation {
    pub code: u64,
    pub tag: u16,
    pub attributes: usize,
    pub next: usize,
}

// Two bytes below 128, both 0 or neither of them: each is then a number by itself, and nearly all of a table is of such bytes. None stands for
// all else.
#[tactic(auto, using(crate::proofs::AbbreviationLaws::short_pair_bytes))]
#[inline(always)]
fn short_pair(s: &[u8], at: usize, end: usize) -> Option<(u8, u8)>
    ensures { result ≡ short_pair s.now at end }
{
    let a = read_u8(s, at, end).ok()?;
    let b = read_u8(s, a.next, end).ok()?;
    if 127 < a.value {
        return None;
    }
    if 127 < b.value {
        return None;
    }
    if (a.value == 0) != (b.value == 0) {
        return None;
    }
    Some((a.value, b.value))
}

// Whether two bytes stand at `at` that are both from 1 to 127: a short pair that is not 0, and nearly every pair. A table is passed over again for
// each entry, so this test decides what an entry costs: it is one jump where `short_pair` has three.
#[tactic(auto, unfolding(crate::specs::Inner::is_short))]
#[inline(always)]
fn is_short(s: &[u8], at: usize, end: usize) -> bool
    ensures { result ≡ is_short s.now at end }
{
    let Ok(a) = read_u8(s, at, end) else {
        return false;
    };
    let Ok(b) = read_u8(s, a.next, end) else {
        return false;
    };
    if a.value < 1 {
        return false;
    }
    if 127 < a.value {
        return false;
    }
    if b.value < 1 {
        return false;
    }
    b.value < 128
}

// The pair of name and form at `at`: (0, f) is refused with 5 and (n, 0) with 6.
#[tactic(auto, unfolding(crate::specs::Abbreviations::pair))]
#[inline(always)]
fn long_attribute(s: &[u8], at: usize, end: usize) -> Result<ReadAttribute, Error>
    ensures { outcome result ≡ pair s.now at end }
{
    let name = leb128::read::u16(s, at, end)?;
    let form = leb128::read::u16(s, name.next, end)?;
    let pair = ReadAttribute {
        name: name.value,
        form: form.value,
        next: form.next,
    };
    if pair.name == 0 {
        if pair.form == 0 {
            return Ok(pair);
        }
        return Err(Error::AttributeNameZero);
    }
    if pair.form == 0 {
        return Err(Error::AttributeFormZero);
    }
    Ok(pair)
}

// The same: a short pair here, all else apart.
#[tactic(auto, using(crate::proofs::AbbreviationLaws::pair_short, crate::proofs::AbbreviationLaws::short_place))]
#[inline(always)]
pub fn read_attribute(s: &[u8], at: usize, end: usize) -> Result<ReadAttribute, Error>
    ensures { outcome result ≡ pair s.now at end }
{
    let Some((name, form)) = short_pair(s, at, end) else {
        return long_attribute(s, at, end);
    };
    Ok(ReadAttribute {
        name: name as u16,
        form: form as u16,
        next: at + 2,
    })
}

// Passes over the pairs of a declaration, the closing (0, 0) included.
#[tactic(auto, using(crate::proofs::AbbreviationLaws::short_on, crate::proofs::AbbreviationLaws::short_inside, crate::proofs::AbbreviationLaws::attributes_end_step, crate::proofs::AbbreviationLaws::pair_forward))]
#[inline(always)]
fn skip_attributes(s: &[u8], at: usize, end: usize) -> Result<usize, Error>
    ensures { outcome result ≡ attributes_end s.now at end }
{
    let mut place = at;
    loop {
        if is_short(s, place, end) {
            place += 2;
        } else {
            let a = long_attribute(s, place, end)?;
            if a.name == 0 {
                return Ok(a.next);
            }
            place = a.next;
        }
    }
}

// The code and the tag of the declaration at `at`. The table ends at the end of its part, and at code 0.
#[tactic(auto, unfolding(crate::specs::Abbreviations::head))]
fn long_head(s: &[u8], at: usize, end: usize) -> Result<Option<Head>, Error>
    ensures { outcome result ≡ head s.now at end }
{
    if is_empty(s, at, end) {
        return Ok(None);
    }
    let code = leb128::read::unsigned(s, at, end)?;
    if code.value == 0 {
        return Ok(None);
    }
    let tag = leb128::read::u16(s, code.next, end)?;
    if tag.value == 0 {
        return Err(Error::AbbreviationTagZero);
    }
    Ok(Some(Head {
        code: code.value,
        tag: tag.value,
        next: tag.next,
    }))
}

// The same: a code and a tag of one byte each here, all else apart.
#[tactic(auto, using(crate::proofs::AbbreviationLaws::head_short, crate::proofs::AbbreviationLaws::short_place))]
#[inline(always)]
fn read_head(s: &[u8], at: usize, end: usize) -> Result<Option<Head>, Error>
    ensures { outcome result ≡ head s.now at end }
{
    match short_pair(s, at, end) {
        Some((0, _)) | None => long_head(s, at, end),
        Some((code, tag)) => Ok(Some(Head {
            code: code as u64,
            tag: tag as u16,
            next: at + 2,
        })),
    }
}

// The declaration at `at`, or the end of the table.
#[tactic(auto, using(crate::proofs::AbbreviationLaws::declared_step), unfolding(crate::proofs::AbbreviationLaws::with_end))]
#[inline(always)]
pub fn read_declaration(s: &[u8], at: usize, end: usize) -> Result<Option<NameAbbreviation>, Error>
    ensures { outcome result ≡ declared s.now at end }
{
    let Some(head) = read_head(s, at, end)? else {
        return Ok(None);
    };
    let next = skip_attributes(s, head.next, end)?;
    Ok(Some(NameAbbreviation {
        code: head.code,
        tag: head.tag,
        attributes: head.next,
        next,
    }))
}

// The first declaration with a code (gimli's `NameAbbreviations::get`). In a table that was never read whole, a bad declaration
// that is met before the wanted one ends, that one included, gives its own refusal.
#[tactic(auto, using(crate::proofs::AbbreviationLaws::found_step, crate::proofs::AbbreviationLaws::declared_forward))]
pub fn get(s: &[u8], at: usize, end: usize, code: u64) -> Result<Option<NameAbbreviation>, Error>
    ensures { outcome result ≡ found s.now at end code }
{
    let mut place = at;
    loop {
        let Some(declaration) = read_declaration(s, place, end)? else {
            return Ok(None);
        };
        if declaration.code == code {
            return Ok(Some(declaration));
        }
        place = declaration.next;
    }
}

// Reads the whole table, and refuses as the first bad declaration does (gimli's `NameAbbreviations::parse`): the search for code 0, which no
// declaration has.
#[tactic(auto, using(crate::proofs::AbbreviationLaws::parsed_found))]
pub fn parse(s: &[u8], at: usize, end: usize) -> Result<(), Error>
    ensures { outcome result ≡ parsed s.now at end }
{
    get(s, at, end, 0)?;
    Ok(())
}
