// The C functions of the list of moves from a former layout to a new one: its count and the list. The cluster enters as its record, the two layouts
// in lent cells. Each answers its refusal, 0 for none; its other numbers go into the lent cells `answer`, and an `answer` that is too short is refused
// before anything is touched.
#![tactic(auto)]

pub mod count;
pub mod list;
