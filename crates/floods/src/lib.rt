// A flood over a site's links: the radios that links lead to over radios of a set, which is that of a level.
#![tactic(auto)]

pub mod flood;
pub mod level;
