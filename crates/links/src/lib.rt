// Link up and link down, one by one, in two steps and in a batch: asked and planned by crate `plan`, and the plan applied. Nothing is
// written before the plan is whole, and a refusal leaves every table as it was. Asking lists what a plan would change; committing plans
// anew and applies what is the same as was proposed.
#![tactic(auto)]

mod apply;
pub mod ask;
pub mod batch;
pub mod commit;
mod counts;
pub mod link;
pub mod step;
