// Theorems across the operations: there is no code here.
// Begin with specs/Becomes.antt and proofs/Margins.antt, which has demand 3; proofs/Cases.antt is the table of document 01's cases.

#![tactic(auto)]
