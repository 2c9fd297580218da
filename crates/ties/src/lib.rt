// Theory only: the first among the layouts of most weight. Its files are specs/ and proofs/.
#![tactic(auto)]

pub fn nothing() {}
