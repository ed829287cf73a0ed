//! Labels: the text of a formula, as a domain file writes it.
#![tactic(auto)]

mod basic;
mod bounds;
mod heads;
mod label;
mod line;
mod rests;
mod terms;
mod words;

pub use label::label_text;
