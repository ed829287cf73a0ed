//! Plans with a part that is repeated for ever: they are read, checked and told, and never searched
//! for (a run with a stem and a loop, Sistla and Clarke 1985).
#![tactic(auto)]

mod check;
pub mod laws;
mod plan;
mod read;
mod text;
mod verdict;

pub use check::check_loop;
pub use plan::LoopPlan;
pub use read::loop_of;
pub use text::loop_text;
pub use tl_action::CheckFault;
pub use verdict::LoopVerdict;
