// The five facts of an entry, as its attributes state them: one pass over the attributes that its declaration names reads every
// value in turn, and keeps the first attribute of each of the five names by value, not resolved (SPECIFICATION 9.2
// and 9.7).
// (s, at, end) stay parameters: with a struct of s and end, as was tried, contracts are no plainer (docs/DECISIONS.md).
ghost use Rattle.std.specs.Prelude.{◌≡◌, List, [], ◌∷◌, ◌++◌};
ghost use Rattle.reader.specs.Answers.{outcome};
ghost use Rattle.attributes.specs.Attributes.{NameAttribute, facts};
ghost use Rattle.attributes.specs.Inner.{facts_read};

use crate::attribute::FirstAttribute;
use abbreviations::read_attribute;
use forms::read_debug_names_form_value;
use reader::{Error, Read, RunTimeEndian};

// The first attribute of each name: compile_unit 1, type_unit 2, die_offset 3, parent 4, type_hash 5.
#[derive(Clone, Copy, Default)]
pub struct Facts {
    pub compile_unit: Option<FirstAttribute>,
    pub type_unit: Option<FirstAttribute>,
    pub die_offset: Option<FirstAttribute>,
    pub parent: Option<FirstAttribute>,
    pub type_hash: Option<FirstAttribute>,
}

impl Facts {
    // Keeps one attribute more: the facts of a list of attributes are then those of the list with this one
    // behind it.
    #[tactic(auto, using(crate::proofs::AttributeLaws::facts_more, crate::proofs::AttributeLaws::facts_other))]
    #[inline(always)]
    fn keep(&mut self, name: u16, a: FirstAttribute)
        ensures { (list : List NameAttribute) → self.old ≡ facts list → self.new ≡ facts (list ++ (record { name = name; form = a.form; value = a.value } ∷ [])) }
    {
        match name {
            1 => self.compile_unit = self.compile_unit.or(Some(a)),
            2 => self.type_unit = self.type_unit.or(Some(a)),
            3 => self.die_offset = self.die_offset.or(Some(a)),
            4 => self.parent = self.parent.or(Some(a)),
            5 => self.type_hash = self.type_hash.or(Some(a)),
            _ => (),
        }
    }
}

// The facts of the entry whose values begin at `at`, in a part up to `end`, and the place past its last value. Its declaration's pairs of
// name and form begin at `pairs`, in a part up to `pairs_end`.
#[tactic(auto, using(crate::proofs::AttributeLaws::facts_step, abbreviations::proofs::AbbreviationLaws::pair_forward))]
#[inline(always)]
pub fn read_facts(
    order: RunTimeEndian,
    s: &[u8],
    pairs: usize,
    pairs_end: usize,
    at: usize,
    end: usize,
) -> Result<Read<Facts>, Error>
    ensures { outcome result ≡ facts_read order s.now pairs pairs_end at end }
{
    let mut pair = pairs;
    let mut place = at;
    let mut facts = Facts::default();
    loop {
        let a = read_attribute(s, pair, pairs_end)?;
        if a.name == 0 {
            return Ok(Read {
                value: facts,
                next: place,
            });
        }
        let v = read_debug_names_form_value(a.form, order, s, place, end)?;
        facts.keep(
            a.name,
            FirstAttribute {
                form: a.form,
                value: v.value,
            },
        );
        pair = a.next;
        place = v.next;
    }
}
