//! Depth-first search for plans, with a memory of remaining depths.
#![tactic(auto)]

mod depth;
mod expansions;
pub mod laws;
mod level;
mod packed;
mod stack;

pub use depth::search;
