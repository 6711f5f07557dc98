// The shell tree over the list of its nodes and the answer table, which gets each radio's node name. Bitmaps and floods, no recursion.
// Refused, it leaves every lent table as it was.
#![tactic(auto)]

pub mod levels;
pub mod nodes;
