// What is proved of the definitions here, each the contract of a function that does nothing.

mod derived;
mod substitution;

pub use derived::{equality_is_sameness, orders_are_value_order};
pub use substitution::{
    substitution_keeps_fitting, substitution_keeps_names, substitution_keeps_state_formulas,
    substitution_leaves_what_has_no_value,
};
