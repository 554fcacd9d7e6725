// The image that is built from a list of pairs, and that it is accepted and holds them: definitions and theorems, and no code.
// See specs/Shape.antt, specs/Build.antt and proofs/Theorem.antt.
#![tactic(auto)]
