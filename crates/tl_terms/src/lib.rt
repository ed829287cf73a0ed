//! What planning problems mean.
#![tactic(auto)]

pub mod laws;
mod steps;

pub use steps::Steps;
