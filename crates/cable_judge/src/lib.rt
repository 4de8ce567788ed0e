// A whole stretch answered: whether it is the awaited frame as sending writes it, and its bytes find room.
#![tactic(auto)]

pub mod answers;
mod judging;
pub mod settling;
