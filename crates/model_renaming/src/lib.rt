// Ids are names: what a renaming of the ids of two graphs carries over (specs/), and the theorems about it (proofs/). There is no code here.
#![tactic(auto)]
