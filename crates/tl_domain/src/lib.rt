//! Domain files: the domain that the forms of a file stand for, or the first rule that one of them
//! breaks; and the problem that a domain file and a problem file stand for together.
#![tactic(auto)]

mod clauses;
mod definitions;
mod domain_file;
mod draft;
mod heads;
mod item_parts;
mod item_shapes;
mod items;
mod laws;
mod operator_names;
mod operators;
mod parts;
mod problem;
mod read;

pub use laws::{
    domain_is_kept, files_stand_for_one_problem, first_break_is_least, lawful_names_are_writable,
    names_are_texts,
};
pub use problem::problem_of;
pub use read::{check_domain, domain_of};
pub use tl_rules::{FormFault, Rule};
