// The worked examples of 01 that are marked P, as one table with one claim: definitions and proofs, and no code. See specs/Examples.antt
// for the table and proofs/Examples.antt for the claim.
#![tactic(auto)]
