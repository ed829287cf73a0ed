//! Progression of interned formulas through a world, and their truth where a world is repeated for
//! ever (Bacchus and Kabanza 2000).
#![tactic(auto)]

mod broken;
mod by_world;
mod changed;
mod early;
mod fact_changes;
mod few_bindings;
mod frames;
mod here;
mod idling;
mod joined;
mod joins;
mod known;
mod layers;
mod numbers;
mod order;
mod part_places;
mod parts;
mod progression;
mod quantifier;
mod quick;
mod remaining;
mod residual;
mod residuals;
mod substitution;
mod truth;

pub use broken::is_broken_by;
pub use fact_changes::FactChanges;
pub use idling::idle;
pub use part_places::PartPlaces;
pub use progression::{progress, progress_kept};
pub use residuals::{Incoming, Residuals};
