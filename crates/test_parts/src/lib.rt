// Parts that several test programs have: a digest of tables, parts of lists, files with their words and names, and pseudo-random numbers.
#![tactic(auto)]

pub mod digest;
pub mod files;
pub mod parts;
pub mod random;
pub mod say;
pub mod words;
