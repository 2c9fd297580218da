// Whether a layout in hand is valid at a size.
#![tactic(auto)]

pub mod check;
mod rows;
