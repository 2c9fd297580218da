// What is read of the nodes in use, and sums over the nodes and over the zones: all over slices and numbers.
#![tactic(auto)]

pub mod nodes;
pub mod totals;
