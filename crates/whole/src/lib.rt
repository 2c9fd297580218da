// Theory only: planning, checking and layout records fit together. The statements are in proofs/Whole.antt.
#![tactic(auto)]

pub fn nothing() {}
