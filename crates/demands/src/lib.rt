// The three demands as theorems about check, placing and step: definitions and proofs, and no code. See specs/Demand.antt
// for what is stated and proofs/Demand.antt for the statements.
#![tactic(auto)]
