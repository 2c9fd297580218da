// The C functions over a layout in hand, which is in lent cells; a cluster enters as its record. Each answers its refusal, 0 for none; its other
// numbers go into the lent cells `answer`, and an `answer` that is too short is refused before anything is touched.
#![tactic(auto)]

pub mod check;
pub mod figure;
pub mod given;
pub mod row;
pub mod worst;
