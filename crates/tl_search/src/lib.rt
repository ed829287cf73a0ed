//! What both searches share, below either of them: the graph of search nodes, what a search answers
//! and reports, and what it sees of a search space.
#![tactic(auto)]

mod arrival;
mod event;
mod fault;
mod faults;
pub mod laws;
mod outcome;
mod reporting;
mod search_space;

pub use arrival::Arrival;
pub use event::{Event, Events};
pub use fault::{SearchFault, SpaceFault};
pub use faults::{child_fault, root_fault, search_node_fault};
pub use outcome::{Outcome, Report};
pub use reporting::{report_arrival, report_root};
pub use search_space::SearchSpace;
