// The block reader: an image and the number of its next block.
#![tactic(auto)]

pub mod blocks;
