// Between a cluster and the theory of exchanges: the nodes in use, and their zones as indices.
#![tactic(auto)]

pub mod zones;
