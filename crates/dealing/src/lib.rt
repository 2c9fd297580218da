// Theory only: when a layout exists, the layout that is dealt, and the largest size by bisection. Its files are specs/ and proofs/.
#![tactic(auto)]

pub fn nothing() {}
