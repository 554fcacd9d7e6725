// Every top theorem on one page, by its name and its statement: proofs/Theorems.antt. There is no code here.
#![tactic(auto)]
