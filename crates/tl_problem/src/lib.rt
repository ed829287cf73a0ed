//! Problem files: the forms that stand for a problem of a domain, and the rules that other forms
//! break.
#![tactic(auto)]

mod declarations;
mod elements;
mod fact_set;
mod facts;
pub mod laws;
mod literals;
mod place_map;
mod problem;
mod section_lists;
mod sections;
mod values;

pub use elements::Section;
pub use problem::problem_of;
