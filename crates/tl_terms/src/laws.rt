// Laws of the definitions, each the contract of a function that does nothing.

mod calm;
mod definitions;
mod goal;
mod idling;
mod orders;
mod progression;
mod runs;
mod steps;
mod substitution;
mod tuples;
mod values;

pub use calm::no_arithmetic_looks_at_nothing;
pub use definitions::{defined_atom_is_its_body, plainly_defined_atom_is_its_body};
pub use goal::goal_test_is_by_membership;
pub use idling::{idle_words_mean_their_formula, idling_check_is_truth};
pub use orders::{
    action_order_is_total, key_order_is_total, plan_order_is_total, prefix_comes_before,
    value_order_is_total,
};
pub use progression::{
    acceptance_depends_on_the_pair, accepted_exactly_where_its_pair_is,
    false_residual_begins_no_satisfying_run, future_depends_on_the_pair, open_by_its_own_residual,
    progression_goes_by_its_table, progression_lemma, progression_lemma_along_a_sequence,
    residual_holds_after_the_worlds, simplified_conjunction_keeps_truth,
    simplified_disjunction_keeps_truth, simplified_negation_keeps_truth,
    state_formula_holds_where_true, state_formula_progresses_to_its_truth,
};
pub use runs::satisfaction_is_decided;
pub use steps::{order_of_instances_does_not_matter, step_is_by_its_conditions};
pub use substitution::{
    quantifiers_are_true_by_instances, quantifiers_hold_by_instances,
    quantifiers_progress_by_instances, substituted_means_the_same,
    substitution_of_nothing_is_nothing, substitution_twice_is_once,
};
pub use tuples::{tuples_are_those_of_the_bound, tuples_rise};
pub use values::arguments_of_executed_plans_pass;
