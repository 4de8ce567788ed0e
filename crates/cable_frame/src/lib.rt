// Frames of text, in lent slices: a frame's lines, and a frame.
#![tactic(auto)]

pub mod framing;
pub mod lines;
