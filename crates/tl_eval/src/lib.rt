//! The values of terms and the truth of state formulas in a world.
#![tactic(auto)]

mod basic_truth;
mod binder;
mod bound_truth;
mod bound_tuples;
mod env;
mod fault;
mod here;
mod kept;
pub mod laws;
mod memory;
mod pattern_of;
mod plain_truth;
mod quantified;
mod range;
mod reading;
mod row;
mod scope;
mod state_truth;
mod term_value;
mod tuples;

pub use binder::Binder;
pub use bound_truth::bound_holds;
pub use bound_tuples::{BoundPattern, BoundTuples};
pub use env::Env;
pub use fault::EvalFault;
pub use memory::Memory;
pub use plain_truth::plain_state;
pub use range::RangeNote;
pub use state_truth::{state, state_in};
pub use term_value::term;
pub use tuples::next_tuple;
