// The C functions over records: bytes to cells, and cells to bytes. Each answers its refusal, 0 for none; its other numbers go into the lent cells
// `answer`, and an `answer` that is too short is refused before anything is touched.
#![tactic(auto)]

pub mod cluster_in;
pub mod layout_in;
pub mod layout_out;
