//! Plan files, and the texts of answers.
#![tactic(auto)]

pub mod laws;
mod outcomes;
mod plans;
mod ranges;
mod refusals;
mod traces;
mod verdicts;

pub use outcomes::outcome_text;
pub use plans::plan_of;
pub use ranges::range_text;
pub use refusals::refused_text;
pub use tl_label::label_text;
pub use traces::trace_text;
pub use verdicts::verdict_text;
