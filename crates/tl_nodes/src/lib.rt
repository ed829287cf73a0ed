//! Formulas as interned nodes: one number for one tree (hash-consing, Ershov 1958). Residuals share
//! most of their parts, so each part is kept once, and two formulas are compared by their numbers.
#![tactic(auto)]

mod node;
mod nodes;

pub use node::Node;
pub use nodes::{Nodes, fact_mark};
