// An index of the closed objects in lent words, which finds an equal one without looking at all of them.
#![tactic(auto)]

pub mod look;
