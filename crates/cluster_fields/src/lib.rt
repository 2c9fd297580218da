// The fields of a cluster record, one by one: their faults, and taking in what they say.
#![tactic(auto)]

pub mod faults;
pub mod row_faults;
pub mod taking;
