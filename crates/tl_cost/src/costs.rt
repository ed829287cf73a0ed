// The costs of operators.
ghost use Rattle.std.specs.Prelude.{◌≡◌};
ghost use Rattle.tl_cost.specs.PlanCosts.{action_cost};

use tl_syntax::{Action, Items};

/// The cost of each operator, by its position in the domain's list.
pub type Costs = Items<u32>;

/// The cost of an action: that of its operator, or 1 where the list has none for it.
pub(crate) fn cost_of(costs: &Costs, action: &Action) -> u32
    ensures { result ≡ action_cost costs.now action.now }
{
    match costs.as_slice().get(action.op as usize) {
        Some(cost) => *cost,
        None => 1,
    }
}
