// The tree that an image holds and its keys by the Masstree paper's layering: definitions and theorems, and no code.
// See specs/Tree.antt, specs/Keys.antt and specs/Accepted.antt.
#![tactic(auto)]
