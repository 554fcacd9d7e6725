// Demand 3 over the functions that C calls: definitions and a proof, and no code. See specs/CDemand.antt for what is stated and
// proofs/CDemand.antt for the theorem.
#![tactic(auto)]
