//! Proofs that there is no plan: an answer "none" that a reader can check without a search.
#![tactic(auto)]

mod check;
mod checking;
mod judging;
mod known;
pub mod laws;
mod listing;
mod proof;
mod read;
mod reports;
mod text;
mod verdict;

pub use check::check_none;
pub use proof::{Link, Links, Proof};
pub use read::proof_of;
pub use reports::certificate;
pub use text::{none_text, proof_text};
pub use verdict::NoneVerdict;
