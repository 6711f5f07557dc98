// Writes the image of sound tables.
#![tactic(auto)]

pub mod writer;
