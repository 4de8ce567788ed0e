// A whole table sent as frames of text, in lent slices.
#![tactic(auto)]

pub mod sending;
