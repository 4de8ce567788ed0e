// What the rules (docs/RULES.md) say of sessions and of lists of calls, as definitions on lists and numbers alone (specs/), and the theorems
// about them (proofs/). There is no code here.
#![tactic(auto)]
