// The blocks of a site image: its layout, its bytes, questions 9 and 10, and its form, the first part of question 11.
#![tactic(auto)]

pub mod bytes;
pub mod checks;
pub mod form;
pub mod header;
pub mod layout;
