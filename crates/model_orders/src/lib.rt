// What the rules (docs/RULES.md) say of objects, readings, orders and tables, as definitions on lists and numbers alone (specs/), and the
// theorems about them (proofs/). For code there are names for some of their numbers.
#![tactic(auto)]

// The words of a link in the record store: its field's place, width and inner start, and its child.
pub const LINK_WORDS: usize = 4;

// How many bytes a field has at least and at most.
pub const NARROWEST: usize = 2;

pub const WIDEST: usize = 4;
