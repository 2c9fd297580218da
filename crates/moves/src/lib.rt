// Theory only: the moves from a former layout to a new one, and what is held after any number of them. Its files are specs/ and proofs/.
#![tactic(auto)]

pub fn nothing() {}
