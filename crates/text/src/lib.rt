// Numbers as text, in lent slices: digits of a base up to 16, and decimal without leading zeros. It assumes nothing of what it reads.
#![tactic(auto)]

pub mod decimal;
pub mod digits;
