// A hearing: the site brought to the links that both ends hear. `questions` puts 14 and 7 to the heard table, `one_sided` marks the pairs
// of which one end hears the other, `wanted` tells the links of a row that change, and `hear` takes them down and then up, by the steps of
// a batch.
#![tactic(auto)]

pub mod hear;
mod one_sided;
mod questions;
mod wanted;
