//! The executable actions of a world, and the step that an action makes.
#![tactic(auto)]

mod all_actions;
mod arranged;
mod bounds;
mod changes;
mod check_fault;
mod clash;
mod collect;
mod early;
mod first_bound;
mod here;
mod join;
pub mod laws;
mod new_parameters;
mod next;
mod operator_rows;
mod order;
mod own_order;
mod prepared;
mod step;
mod sure;
mod values;

pub use all_actions::{Lister, actions};
pub use changes::Changes;
pub use check_fault::CheckFault;
pub use here::Here;
pub use step::{apply, changes_if_executable};
