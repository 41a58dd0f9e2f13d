// What the exported calls promise of lists of steps, and of the query, in the structs of plain numbers that they hand over: specs/ states it,
// and proofs/ proves it. There is no code here.
#![tactic(auto)]
