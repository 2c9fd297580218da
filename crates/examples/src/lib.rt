// Theory only: the starred examples of the paper's table, as one table with one proposition. Its files are specs/ and proofs/.
#![tactic(auto)]

pub fn nothing() {}
