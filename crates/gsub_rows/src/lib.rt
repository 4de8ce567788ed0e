// The tables as rows of fields, and the field of a number in a table.
#![tactic(auto)]

mod common;
mod contexts;
mod features;
pub mod fields;
mod lookups;
pub mod rows;
pub mod runs;
mod substitutions;
