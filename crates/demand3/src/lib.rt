// Demand 3 as one statement: specs/Demand3.antt has it, with what it expects of the query in specs/Expected.antt, and proofs/ proves it. There
// is no code here.
#![tactic(auto)]
