// The words of the record store, what they mean, and what sound stores hold.
#![tactic(auto)]

pub mod counts;
pub mod limits;
pub mod link;
pub mod span;
pub mod state;
pub mod words;
