// Laws of the definitions, each the contract of a function that does nothing.

mod events;
mod outcomes;
mod paths;
mod range;

pub use events::{events_begin_at_the_root, kept_pairs_have_events, pruned_events_are_right};
pub use outcomes::{answers_exclude_each_other, few_pairs_are_not_spent};
pub use paths::{
    accepted_plans_are_walks, distance_is_one, open_paths_are_walks, pair_goes_on,
    prefixes_are_leading, prefixes_are_open, walks_have_pairs,
};
pub use range::{calm_has_no_cause, calm_with_fewer_actions, looked_is_cause};
