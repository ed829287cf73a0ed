//! The explanation of a plan: what is left of the control formula in each of its states (Bacchus
//! and Kabanza 2000).
#![tactic(auto)]

mod explainer;
mod explanation;
mod fault;
pub mod laws;
mod lines;

pub use explainer::explain;
pub use fault::ExplainFault;
