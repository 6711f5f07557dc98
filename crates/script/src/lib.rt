// The replay program's language: `lines` parses a line, and every other form is `Bad`; `printing` prints what a call answered; `writer`
// writes the script that rebuilds a site. Which numbers a site takes, and which line stands where, is left to the program.
#![tactic(auto)]

pub mod lines;
pub mod printing;
pub mod writer;
