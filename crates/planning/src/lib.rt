// Theory only: the run of planning as a machine, and demand 3 of its answers. Its files are specs/ and proofs/.
#![tactic(auto)]

pub fn nothing() {}
