//! Readers of the formulas of domain files: terms, bounds, formulas and effects, or the first rule
//! that a form breaks.
#![tactic(auto)]

mod arguments;
mod atoms;
mod bindings;
pub mod bounds;
mod effect_parts;
pub mod effects;
mod formula_checks;
mod formula_leaves;
mod formula_parts;
mod formulas;
mod goals;
pub mod laws;
mod quantifiers;
mod roles;
mod scope;
mod shapes;
mod signature;
mod steps;
mod terms;
pub mod variables;
mod words;

pub use formulas::formula;
pub use roles::FormulaRole;
pub use scope::Scope;
pub use signature::{NameSignature, Table};
pub use words::{EffectWord, FormulaWord, is_reserved};
