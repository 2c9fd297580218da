// What is lost with nodes: with those that are given, and at worst with so many of them.
#![tactic(auto)]

pub mod given;
mod rows;
mod search;
pub mod worst;
