//! Tables of worked cases: what the columns and the braces of a row stand for. The README says how
//! a row is written.
#![tactic(auto)]

mod named_texts;
mod rows;

pub use rows::{column, filled, is_row};
