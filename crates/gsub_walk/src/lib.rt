// A table walked field by field: what a read does next, without the session that it is done to.
#![tactic(auto)]

pub mod features;
pub mod judge;
pub mod modes;
pub mod walk;
