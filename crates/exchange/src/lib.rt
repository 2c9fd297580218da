// Theory only: rows, exchanges, prices, levels and circuits, over any caps, weights and free pairs. Its files are specs/ and proofs/.
#![tactic(auto)]

pub fn nothing() {}
