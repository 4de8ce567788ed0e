// The head that takes a table back from its text, fed in any cuts.
#![tactic(auto)]

pub mod answers;
pub mod feeding;
mod holding;
