//! What the readers of domain, problem and plan files share: rules and the forms that break them,
//! parts of forms, and the symbols of a file.
#![tactic(auto)]

mod calls;
mod one_form;
pub mod parts;
mod rule;
mod symbols;
mod vocabulary;

pub use calls::{Call, call_in};
pub use one_form::check_last;
pub use rule::{FormFault, Rule, breaks};
pub use symbols::{add_forms, number_of};
pub use vocabulary::Vocabulary;
