//! What planning problems are written in: names, lists, and trees. What all of it means stands in
//! the crate above, `tl_terms`.
#![tactic(auto)]

mod action;
mod bound;
mod compound;
mod declared;
mod definition;
mod domain;
mod effect;
mod fact;
mod formula;
mod items;
mod junction;
pub mod laws;
mod memory;
mod names;
mod operator;
mod place_value;
mod problem;
mod short_list;
mod substitution;
mod term;
mod value;
mod variable;

pub use action::{Action, Actions};
pub use bound::{Bound, Bounds};
pub use declared::{Declared, Declareds};
pub use definition::{Definition, Definitions};
pub use domain::Domain;
pub use effect::{Effect, Effects};
pub use fact::{Fact, Facts};
pub use formula::{Formula, Formulas};
pub use items::{Bytes, Ids, Items, Numbers32};
pub use junction::Junction;
pub use memory::NoMemory;
pub use names::Names;
pub use operator::{Operator, Operators};
pub use place_value::{PlaceValue, PlaceValues};
pub use problem::Problem;
pub use short_list::ShortList;
pub use substitution::{Binding, Bindings, bindings_below, bound_with_values, subst, subst_bound};
pub use term::{Term, Terms};
pub use value::{Cmp, Op, Value, Values};
pub use variable::{Arg, Args, Var, Vars};
