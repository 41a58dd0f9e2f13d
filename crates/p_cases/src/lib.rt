// The cases that SPECIFICATION 16.2 marks P, as one theorem about the definitions: specs/Cases.antt states it and
// proofs/Cases.antt proves it by computation. specs/CaseA.antt has case A and what the definitions say of it, specs/Queries.antt its
// query, specs/Exported.antt what the exported calls hand over of it, specs/Texts.antt the text of its listing, specs/Lost.antt the names that
// tables lose, and specs/Split.antt an entry with two units. The crate stands above all others and has no code.
#![tactic(auto)]
