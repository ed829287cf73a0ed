//! Breadth-first search for plans.
#![tactic(auto)]

mod breadth;
pub mod laws;
mod levels;
mod turn;

pub use breadth::search;
