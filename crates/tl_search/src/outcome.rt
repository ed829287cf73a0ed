// What a search answers.
use crate::Events;
use tl_syntax::Actions;

/// What a search within a bound on the number of actions and a budget of search nodes answers.
#[derive(Drop)]
pub enum Outcome {
    /// An accepted plan.
    Plan(Actions),
    /// No plan of any length is accepted.
    NoPlan,
    /// No plan within the bound is accepted; longer ones were not looked for.
    NoneWithin,
    /// More search nodes were met than the budget allows.
    Spent,
}

/// An answer, and the events before it.
#[derive(Drop)]
pub struct Report {
    /// The answer.
    pub outcome: Outcome,
    /// The events in their order; none where they are not watched.
    pub events: Events,
}
