// Theory only: runs of improvements by allowance, whatever is improved, and what holds of each. Its files are specs/ and proofs/.
#![tactic(auto)]

pub fn nothing() {}
