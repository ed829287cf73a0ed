//! A run of the program, from its words to its exit status.
#![tactic(auto)]

mod command;
mod commands;
mod input;
mod laws;
mod read_back;
mod reply;
mod search;
mod status;
mod stop;
mod texts;
mod turn;
mod words;

pub use command::run;
pub use read_back::{
    executed_plans_are_read_back, printed_plans_are_valid, printed_proofs_are_proved,
};
pub use status::Status;
