// Theory only: finite sums, counting and the pigeonhole over indices below a bound. Its files are specs/ and proofs/.
#![tactic(auto)]

pub fn nothing() {}
