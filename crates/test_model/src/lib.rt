// A site worked out by peeling, from document 01 alone: core numbers, orders, link calls, soundness. It uses nothing of the engine
// and depends on no crate, so that the engine can be compared with it. Nothing is proved of it but that it is safe and ends; no
// function has a `requires`.
#![tactic(auto)]

mod cells;
mod cores;
pub mod expected;
mod layout;
pub mod model;
pub mod own_check;
pub mod same;

// How many neighbours v has among n radios of the expected site.
pub fn degree(model: &model::Model, n: usize, v: usize) -> u16 {
    cores::degree(model, n, v)
}
