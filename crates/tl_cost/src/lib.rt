//! Plans of the least cost.
#![tactic(auto)]

mod cost_files;
mod costs;
pub mod laws;
mod open_list;
mod outcome;
mod texts;
mod turn;
mod uniform_cost;
mod ways;

pub use cost_files::costs_of;
pub use costs::Costs;
pub use outcome::CostOutcome;
pub use texts::cost_text;
pub use uniform_cost::cheapest;
