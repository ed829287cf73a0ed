// What a search for a cheapest plan answers.
use tl_syntax::Actions;

/// What a search for a cheapest plan answers within a budget of search nodes.
#[derive(Drop)]
pub enum CostOutcome {
    /// An accepted plan of the least cost, and of those one of the fewest actions, with its cost.
    Plan(Actions, u64),
    /// No plan of any length is accepted.
    NoPlan,
    /// More search nodes were met than the budget allows.
    Spent,
}
