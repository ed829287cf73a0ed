//! The search space: search nodes of a world and a residual (Bacchus and Kabanza 2000), each kept
//! once under a number, with the path by which it was met first.
#![tactic(auto)]

mod arrivals;
mod numbers;
mod search_space;
mod space;
mod way;
mod ways;

pub use space::Space;
pub use tl_eval::RangeNote;
pub use tl_search::{
    Arrival, Event, Events, Outcome, Report, SearchFault, SearchSpace, SpaceFault,
};
pub use tl_world::{Task, World};
