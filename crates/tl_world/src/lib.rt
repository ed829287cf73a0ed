//! Worlds: a finite set of facts and a finite map of places to values.
#![tactic(auto)]

mod facts;
mod gathered;
pub mod laws;
mod match_reader;
mod matches;
mod places;
mod task;
mod unmet;
mod world;

pub use match_reader::MatchReader;
pub use task::Task;
pub use unmet::Unmet;
pub use world::{Tables, World};
