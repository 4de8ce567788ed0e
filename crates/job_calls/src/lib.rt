// A line of a job behind its limits, with its calls on the two stores, which are known to be sound.
#![tactic(auto)]

pub mod line;
mod piece;
pub mod stop;
