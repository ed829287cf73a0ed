// What a search does with the search node whose turn it is.
ghost use Rattle.std.specs.Prelude.{◌≡◌, ◌≤◌, ◌<◌, ◌+◌, List, [], ◌∷◌, ◌++◌, length, Some, None, IfOk, IfErr, OnOk};
ghost use Rattle.tl_syntax.specs.declared.action.Action.{Action};
ghost use Rattle.tl_search.specs.Calls.{IsExecutableAt};
ghost use Rattle.tl_search.specs.NamedAnswers.{IsNamedIn, FaultIsNamed};
ghost use Rattle.tl_search.specs.SameTask.{HasSameTask};
ghost use Rattle.tl_cost.specs.Ongoing.{HasAction, IsBetweenTurns, IsInTurn, IsTriedAt};
ghost use Rattle.tl_cost.specs.Outcomes.{EndIsNamed, IsCheapestFault, IsUnaccepted, Leaves, OpensUnlessSpent, OpensIfNone, SpentOr, TellsWay, TellsWayOn};
ghost use Rattle.tl_cost.specs.Ticks.{Extends, StaySettled, TicksTurn};
ghost use Rattle.tl_cost.specs.Ways.{AreLinked, Follows, ForWay, GoesOn, HasRoomAfter, IsMet, MeetsAgain};

use crate::costs::{Costs, cost_of};
use crate::outcome::CostOutcome;
use crate::ways::{Found, LastStep, Way};
use std::alloc::Global;
use std::sync::ledger::Ledger;
use tl_eval::RangeNote;
use tl_search::{Arrival, SearchFault, SearchSpace, SpaceFault};
use tl_syntax::{Action, Actions, NoMemory};
use tl_terms::Steps;

/// What a search is given, and does not change.
#[derive(Drop)]
pub(crate) struct UniformCost<'a> {
    /// Where ways and paths are stored.
    pub(crate) alloc: Global,
    /// The cost of each operator.
    pub(crate) costs: &'a Costs,
    /// How many search nodes may be kept.
    pub(crate) nodes: usize,
}

impl UniformCost<'_> {
    /// The search node that is settled ends the search where it is accepted; else its actions are
    /// tried.
    pub(crate) fn settle<S: SearchSpace, L: Ledger>(
        &self,
        space: &mut S,
        found: &mut Found,
        at: usize,
        steps: &mut Steps<L>,
    ) -> Result<Option<CostOutcome>, SearchFault>
        requires turn { IsInTurn (S.problem space.old) (S.task space.old)
            self.now.costs.now self.now.nodes (S.kept space.old) found.old at None }
        requires nodes { self.now.nodes ≤ 100000 }
        ensures same { HasSameTask S.task S.problem space.old space.new }
        ensures outcome { IfOk result (Leaves (S.problem space.old)
            self.now.costs.now self.now.nodes (S.kept space.new)
            (IsBetweenTurns (S.problem space.old) (S.task space.old)
            self.now.costs.now self.now.nodes (S.kept space.new) found.new)) }
        ensures grows { Extends (S.kept space.old) (S.kept space.new) }
        ensures opens { IfOk result
            (OpensIfNone (S.kept space.old) (S.kept space.new) found.old found.new) }
        ensures stay { OnOk result (StaySettled found.old found.new) }
        ensures ticks { TicksTurn (S.problem space.old) (S.kept space.new) at steps.old steps.new }
        ensures fault { IfErr result
            (IsCheapestFault (S.problem space.old) self.now.costs.now self.now.nodes) }
        ensures plan_named { IfOk result (EndIsNamed (S.task space.old)) }
        ensures path_named { IfErr result (FaultIsNamed (S.task space.old)) }
    {
        match space.accepted(at) {
            Ok(true) => {
                let plan = found.path_to(self.alloc, at)?;
                Ok(Some(CostOutcome::Plan(plan, found.ways[at].cost)))
            }
            Ok(false) => {
                if self.expand(space, found, at, steps)? {
                    Ok(Some(CostOutcome::Spent))
                } else {
                    Ok(None)
                }
            }
            Err(SpaceFault::RangeHere(note)) => Err(range_at(self.alloc, found, at, note)),
            Err(SpaceFault::RangeAfter(_)) => unreachable!(),
            Err(SpaceFault::NoMemory) => Err(SearchFault::NoMemory),
        }
    }

    /// All actions of the search node whose turn it is are tried. Answers whether a search node
    /// came that is one too many.
    fn expand<S: SearchSpace, L: Ledger>(
        &self,
        space: &mut S,
        found: &mut Found,
        at: usize,
        steps: &mut Steps<L>,
    ) -> Result<bool, SearchFault>
        requires turn { IsInTurn (S.problem space.old) (S.task space.old)
            self.now.costs.now self.now.nodes (S.kept space.old) found.old at None }
        requires unaccepted { IsUnaccepted (S.problem space.old) (S.kept space.old) at }
        requires nodes { self.now.nodes ≤ 100000 }
        ensures same { HasSameTask S.task S.problem space.old space.new }
        ensures outcome { IfOk result (SpentOr (S.problem space.old)
            self.now.costs.now self.now.nodes (S.kept space.new)
            (IsInTurn (S.problem space.old) (S.task space.old)
            self.now.costs.now self.now.nodes (S.kept space.new) found.new at (Some []))) }
        ensures grows { Extends (S.kept space.old) (S.kept space.new) }
        ensures opens { IfOk result
            (OpensUnlessSpent (S.kept space.old) (S.kept space.new) found.old found.new) }
        ensures stay { OnOk result (StaySettled found.old found.new) }
        ensures ticks { TicksTurn (S.problem space.old) (S.kept space.new) at steps.old steps.new }
        ensures fault { IfErr result
            (IsCheapestFault (S.problem space.old) self.now.costs.now self.now.nodes) }
        ensures path_named { IfErr result (FaultIsNamed (S.task space.old)) }
    {
        let actions = match space.actions(at) {
            Ok(actions) => actions,
            Err(SpaceFault::RangeHere(note)) => return Err(range_at(self.alloc, found, at, note)),
            Err(SpaceFault::RangeAfter(_)) => unreachable!(),
            Err(SpaceFault::NoMemory) => return Err(SearchFault::NoMemory),
        };
        for a in actions.as_slice() {
            if self.arrive(space, found, at, a, steps)? {
                return Ok(true);
            }
        }
        Ok(false)
    }

    /// The search node after an action of the search node whose turn it is arrives. Answers whether
    /// it is one too many.
    fn arrive<S: SearchSpace, L: Ledger>(
        &self,
        space: &mut S,
        found: &mut Found,
        at: usize,
        a: &Action,
        steps: &mut Steps<L>,
    ) -> Result<bool, SearchFault>
        requires turn { HasAction (S.problem space.old) (S.task space.old)
            self.now.costs.now self.now.nodes (S.kept space.old) found.old at a.now }
        requires executable { IsExecutableAt (S.problem space.old) (S.kept space.old) at a.now }
        requires named { IsNamedIn (S.task space.old) a.now }
        requires nodes { self.now.nodes ≤ 100000 }
        ensures same { HasSameTask S.task S.problem space.old space.new }
        ensures outcome { IfOk result (SpentOr (S.problem space.old)
            self.now.costs.now self.now.nodes (S.kept space.new)
            (IsTriedAt (S.problem space.old) (S.task space.old) self.now.costs.now self.now.nodes
            (S.kept space.old) (S.kept space.new) found.old found.new at a.now)) }
        ensures grows { Extends (S.kept space.old) (S.kept space.new) }
        ensures opens { IfOk result
            (OpensUnlessSpent (S.kept space.old) (S.kept space.new) found.old found.new) }
        ensures stay { OnOk result (StaySettled found.old found.new) }
        ensures ticks { steps.new ≡ steps.old + 1 }
        ensures fault { IfErr result
            (IsCheapestFault (S.problem space.old) self.now.costs.now self.now.nodes) }
        ensures path_named { IfErr result (FaultIsNamed (S.task space.old)) }
    {
        match space.child(at, a, steps) {
            Ok(Arrival::Fresh(k)) => {
                if k == self.nodes {
                    return Ok(true);
                }
                let way = self.way_after(found, at, a)?;
                found.add(way)?;
                Ok(false)
            }
            Ok(Arrival::Seen(k)) => {
                self.meet(found, at, a, k)?;
                Ok(false)
            }
            Ok(Arrival::Pruned) => Ok(false),
            Err(SpaceFault::RangeHere(note)) => Err(range_at(self.alloc, found, at, note)),
            Err(SpaceFault::RangeAfter(note)) => Err(range_after(self.alloc, found, at, a, note)),
            Err(SpaceFault::NoMemory) => Err(SearchFault::NoMemory),
        }
    }

    /// The way to a search node with one more action.
    fn way_after(&self, found: &Found, at: usize, a: &Action) -> Result<Way, NoMemory>
        requires { HasRoomAfter found.now at }
        ensures { IfOk result
            (λ way. ForWay found.now at (λ w. GoesOn self.now.costs.now w at a.now way)) }
    {
        let before = &found.ways[at];
        let action = a.copy(self.alloc)?;
        Ok(Way {
            cost: before.cost + u64::from(cost_of(self.costs, a)),
            length: before.length + 1,
            last: Some(LastStep { from: at, action }),
        })
    }

    /// A kept search node is met again by an action: its way is replaced where the cost, or at the
    /// same cost the length, falls.
    fn meet(&self, found: &mut Found, at: usize, a: &Action, k: usize) -> Result<(), NoMemory>
        requires room { HasRoomAfter found.old at }
        requires met { ForWay found.old at (λ w. IsMet self.now.costs.now found.old w a.now k) }
        ensures { OnOk result (MeetsAgain self.now.costs.now found.old found.new at a.now k) }
    {
        let before = &found.ways[at];
        let cost = before.cost + u64::from(cost_of(self.costs, a));
        let length = before.length + 1;
        if found.ways[k].falls(cost, length) {
            let action = a.copy(self.alloc)?;
            let last = Some(LastStep { from: at, action });
            found.replace(k, Way { cost, length, last })?;
        }
        Ok(())
    }
}

/// The fault of an operation past range in the world of a search node; or want of memory.
fn range_at(alloc: Global, found: &Found, at: usize, note: RangeNote) -> SearchFault
    requires at { at < length found.now.ways.items }
    requires linked { AreLinked found.now.ways.items }
    ensures { TellsWay found.now at note result }
{
    match found.path_to(alloc, at) {
        Ok(path) => SearchFault::Range { path, note },
        Err(_) => SearchFault::NoMemory,
    }
}

/// The fault of an operation past range in the world after an action of a search node; or want of
/// memory.
fn range_after(alloc: Global, found: &Found, at: usize, a: &Action, note: RangeNote) -> SearchFault
    requires at { at < length found.now.ways.items }
    requires linked { AreLinked found.now.ways.items }
    ensures { TellsWayOn found.now at a.now note result }
{
    match path_after(alloc, found, at, a) {
        Ok(path) => SearchFault::Range { path, note },
        Err(_) => SearchFault::NoMemory,
    }
}

/// The path that the ways give to a search node, with one more action.
fn path_after(alloc: Global, found: &Found, at: usize, a: &Action) -> Result<Actions, NoMemory>
    requires at { at < length found.now.ways.items }
    requires linked { AreLinked found.now.ways.items }
    ensures { IfOk result (λ path.
        (front : List Action) × Follows found.now.ways.items at front
        × (path ≡ front ++ a.now ∷ [])) }
{
    let mut path = found.path_to(alloc, at)?;
    let action = a.copy(alloc)?;
    path.push(action)?;
    Ok(path)
}
