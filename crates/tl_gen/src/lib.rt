//! The sample: a domain of balls that a robot with two grippers moves, and a problem for each
//! number of balls.
#![tactic(auto)]

mod domain;
mod problem;
mod texts;

pub use texts::{Texts, sample};
