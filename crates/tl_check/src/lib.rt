//! The separate checker of plans (Bacchus and Kabanza 2000), of those that end and of those whose
//! last part is repeated for ever. It stands on no progression.
#![tactic(auto)]

mod along;
mod atoms;
mod binder;
mod checker;
mod cuts;
mod ends;
mod following;
mod formula_labels;
mod gathered;
mod history;
mod instance;
mod labels;
mod later;
pub mod laws;
mod line;
mod part;
mod passes;
mod picked;
mod plain;
mod predicate_tracks;
mod predicates;
mod rest;
mod rounds;
mod run;
mod runs;
mod same_places;
mod span;
mod state_labels;
mod steady;
mod temporal;
mod tracks;
mod trail;
mod tuples;
mod unlabelled;
mod verdict;
mod waiting;

pub use checker::check;
pub use following::Followed;
pub use rounds::{Round, follow_with_states, obeys_round};
pub use tl_action::CheckFault;
pub use trail::Trail;
pub use verdict::Verdict;
