//! The actions of a plan: read from their forms, and each written as its text; and the lines that
//! several answers have.
#![tactic(auto)]

pub mod laws;
mod lines;
mod lists;
mod operators;
mod read;
mod values;
mod write;

pub use lines::{bytes_of, not_executable_text, put_lines, spent_text};
pub use lists::actions_of;
pub use operators::operator_of;
pub use read::action_of;
pub use write::put_action;
