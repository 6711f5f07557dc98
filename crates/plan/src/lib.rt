// A link call from sound tables to a plan: questions 1 to 7, then what becomes of the lower end's stretch of the order. Going up nothing
// moves, the level rises whole, or it is walked from the beginning end or peeled; going down it is peeled from the ends. The tables are
// only read.
#![tactic(auto)]

pub mod decision;
pub mod end_questions;
mod ends;
mod fall;
mod ground;
mod peel;
mod places;
pub mod planned;
mod rise;
mod stretch;
mod stuck;
mod turn;
mod walk;
mod wide_steps;
mod wide_walk;
