// The search for a cheapest plan as its callers see it.
ghost use Rattle.std.specs.Prelude.{◌≡◌, ◌≤◌, [], IfOk, IfErr};
ghost use Rattle.tl_search.specs.NamedAnswers.{FaultIsNamed};
ghost use Rattle.tl_search.specs.SameTask.{HasSameTask};
ghost use Rattle.tl_cost.specs.Ongoing.{IsBetweenTurns};
ghost use Rattle.tl_cost.specs.Outcomes.{AnswersWhereCalm, CostOutcomeIsNamed, IsCheapestFault, IsCheapestOutcome};
ghost use Rattle.tl_cost.specs.Ticks.{IsTickedByTurns, TicksRest};

use crate::costs::Costs;
use crate::outcome::CostOutcome;
use crate::turn::UniformCost;
use crate::ways::{Found, Way};
use std::alloc::Global;
use std::sync::ledger::Ledger;
use tl_search::{Arrival, SearchFault, SearchSpace, root_fault};
use tl_terms::Steps;

impl UniformCost<'_> {
    /// The root, and then the search nodes in their turns.
    fn outcome<S: SearchSpace, L: Ledger>(
        &self,
        space: &mut S,
        steps: &mut Steps<L>,
    ) -> Result<CostOutcome, SearchFault>
        requires empty { S.kept space.old ≡ [] }
        requires some_nodes { 1 ≤ self.now.nodes }
        requires nodes { self.now.nodes ≤ 100000 }
        ensures same { HasSameTask S.task S.problem space.old space.new }
        ensures outcome { IfOk result (IsCheapestOutcome (S.problem space.old)
            self.now.costs.now self.now.nodes (S.kept space.new)) }
        ensures steps { IsTickedByTurns (S.problem space.old) steps.old (S.kept space.new)
            steps.new }
        ensures fault { IfErr result
            (IsCheapestFault (S.problem space.old) self.now.costs.now self.now.nodes) }
        ensures plan_named { IfOk result (CostOutcomeIsNamed (S.task space.old)) }
        ensures path_named { IfErr result (FaultIsNamed (S.task space.old)) }
    {
        match space.root() {
            Ok(Arrival::Fresh(_)) => {
                let mut found = Found::new(self.alloc);
                found.add(Way::at_root())?;
                self.all_turns(space, &mut found, steps)
            }
            Ok(Arrival::Seen(_)) => unreachable!(),
            Ok(Arrival::Pruned) => Ok(CostOutcome::NoPlan),
            Err(fault) => Err(root_fault(self.alloc, fault)),
        }
    }

    /// The open search nodes are settled one after another, the one of the least cost first, and of
    /// those one of the least length.
    fn all_turns<S: SearchSpace, L: Ledger>(
        &self,
        space: &mut S,
        found: &mut Found,
        steps: &mut Steps<L>,
    ) -> Result<CostOutcome, SearchFault>
        requires between { IsBetweenTurns (S.problem space.old) (S.task space.old)
            self.now.costs.now self.now.nodes (S.kept space.old) found.old }
        requires nodes { self.now.nodes ≤ 100000 }
        ensures same { HasSameTask S.task S.problem space.old space.new }
        ensures outcome { IfOk result (IsCheapestOutcome (S.problem space.old)
            self.now.costs.now self.now.nodes (S.kept space.new)) }
        ensures steps { TicksRest (S.problem space.old) (S.kept space.old) (S.kept space.new)
            found.old steps.old steps.new }
        ensures fault { IfErr result
            (IsCheapestFault (S.problem space.old) self.now.costs.now self.now.nodes) }
        ensures plan_named { IfOk result (CostOutcomeIsNamed (S.task space.old)) }
        ensures path_named { IfErr result (FaultIsNamed (S.task space.old)) }
    {
        while let Some(next) = found.open_list.take_first() {
            match self.settle(space, found, next.number, steps)? {
                Some(outcome) => return Ok(outcome),
                None => {}
            }
        }
        Ok(CostOutcome::NoPlan)
    }
}

/// A plan of the least cost, and there of the fewest actions, among at most `nodes` search nodes,
/// by uniform-cost search (Dijkstra 1959). A plan costs the sum of the costs of its actions'
/// operators. `Spent` comes with one node too many. Each action of a node is tried at most once.
pub fn cheapest<S: SearchSpace, L: Ledger>(
    alloc: Global,
    space: &mut S,
    costs: &Costs,
    nodes: u32,
    steps: &mut Steps<L>,
) -> Result<CostOutcome, SearchFault>
    requires empty { S.kept space.old ≡ [] }
    requires some_nodes { 1 ≤ nodes }
    requires nodes { nodes ≤ 100000 }
    ensures same { HasSameTask S.task S.problem space.old space.new }
    ensures outcome { IfOk result
        (IsCheapestOutcome (S.problem space.old) costs.now nodes (S.kept space.new)) }
    ensures steps { IsTickedByTurns (S.problem space.old) steps.old (S.kept space.new) steps.new }
    ensures calm { AnswersWhereCalm (S.problem space.old) costs.now nodes result }
    ensures fault { IfErr result (IsCheapestFault (S.problem space.old) costs.now nodes) }
    ensures named { IfOk result (CostOutcomeIsNamed (S.task space.old)) }
    ensures path_named { IfErr result (FaultIsNamed (S.task space.old)) }
{
    let search = UniformCost {
        alloc,
        costs,
        nodes: nodes as usize,
    };
    search.outcome(space, steps)
}
