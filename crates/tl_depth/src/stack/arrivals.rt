// What comes of an arrival: it is passed, enters a search node, or ends the search.
ghost use Rattle.std.specs.Prelude.{◌≡◌, ◌<◌, length, None, IfOk, IfErr, IfSome, OnOk};
ghost use Rattle.tl_depth.specs.Levels.{path_of};
ghost use Rattle.tl_search.specs.KeptPairs.{pairs_of};
ghost use Rattle.tl_search.specs.NamedAnswers.{EndIsNamed, FaultIsNamed};
ghost use Rattle.tl_depth.specs.Expansions.{Remembers, IsListed, StayExpansions, KnowsActions};
ghost use Rattle.tl_depth.specs.NamedStacks.{SearchIsNamed};
ghost use Rattle.tl_depth.specs.Endings.{EndsBy};
ghost use Rattle.tl_depth.specs.Outcomes.{IsDepthFirstFault};
ghost use Rattle.tl_depth.specs.Ongoing.{IsEntered, IsEntryFault, Judged};
ghost use Rattle.tl_depth.specs.Turns.{HasArrived, TurnsBy};
ghost use Rattle.tl_search.specs.declared.arrival.Arrival.TheVariants as arrival;
ghost use Rattle.tl_search.specs.SameTask.{HasSameTask};

use crate::level::Level;
use crate::packed::PackedActions;
use crate::stack::{DepthFirst, levels_fault, path};
use std::alloc::Global;
use tl_search::{Arrival, Outcome, SearchFault, SearchSpace};
use tl_syntax::NoMemory;

impl DepthFirst {
    /// What comes of an arrival.
    pub fn arrived<S: SearchSpace>(
        &mut self,
        alloc: Global,
        space: &mut S,
        nodes: usize,
        arrival: Arrival,
        left: u32,
    ) -> Result<Option<Outcome>, SearchFault>
        requires arrived { HasArrived (S.problem space.old) nodes (S.kept space.old) self.old arrival left }
        requires named { SearchIsNamed (S.task space.old) self.old }
        requires remembered { Remembers (S.problem space.old) (S.task space.old) (S.kept space.old) self.old.expansions }
        ensures same { HasSameTask S.task S.problem space.old space.new }
        ensures kept { S.kept space.new ≡ S.kept space.old }
        ensures events { self.new.events ≡ self.old.events }
        ensures ends { IfOk result (EndsBy self.old.watch (S.kept space.old) self.old.events arrival) }
        ensures turned { IfOk result (TurnsBy (S.problem space.old) nodes (S.kept space.old)
            self.old self.new arrival left) }
        ensures fault { IfErr result (IsDepthFirstFault (S.problem space.old) self.old.within) }
        ensures named { OnOk result (SearchIsNamed (S.task space.old) self.new) }
        ensures remembered { OnOk result (Remembers (S.problem space.old) (S.task space.old)
            (S.kept space.old) self.new.expansions) }
        ensures plan_named { IfOk result (EndIsNamed (S.task space.old)) }
        ensures path_named { IfErr result (FaultIsNamed (S.task space.old)) }
    {
        match arrival {
            Arrival::Pruned => {
                self.pruned(space, nodes, left);
                Ok(None)
            }
            Arrival::Seen(k) => {
                self.seen(alloc, space, nodes, k, left)?;
                Ok(None)
            }
            Arrival::Fresh(k) => {
                let ended = self.outcome_at(alloc, space, nodes, k, left)?;
                if let Some(outcome) = ended {
                    return Ok(Some(outcome));
                }
                self.fresh(alloc, space, nodes, k, left)?;
                Ok(None)
            }
        }
    }

    /// The arrival is pruned.
    fn pruned<S: SearchSpace>(&mut self, space: &S, nodes: usize, left: u32)
        requires arrived { HasArrived (S.problem space.now) nodes (S.kept space.now) self.old arrival.Pruned left }
        requires named { SearchIsNamed (S.task space.now) self.old }
        ensures turned { TurnsBy (S.problem space.now) nodes (S.kept space.now) self.old self.new arrival.Pruned left None }
        ensures events { self.new.events ≡ self.old.events }
        ensures named { SearchIsNamed (S.task space.now) self.new }
        ensures expansions { self.new.expansions ≡ self.old.expansions }
    {
        self.pass();
    }

    /// The arrival is a search node that is kept.
    fn seen<S: SearchSpace>(
        &mut self,
        alloc: Global,
        space: &mut S,
        nodes: usize,
        k: usize,
        left: u32,
    ) -> Result<(), SearchFault>
        requires arrived { HasArrived (S.problem space.old) nodes (S.kept space.old) self.old (arrival.Seen k) left }
        requires named { SearchIsNamed (S.task space.old) self.old }
        requires remembered { Remembers (S.problem space.old) (S.task space.old) (S.kept space.old) self.old.expansions }
        ensures same { HasSameTask S.task S.problem space.old space.new }
        ensures kept { S.kept space.new ≡ S.kept space.old }
        ensures events { self.new.events ≡ self.old.events }
        ensures turned { OnOk result (TurnsBy (S.problem space.old) nodes (S.kept space.old)
            self.old self.new (arrival.Seen k) left None) }
        ensures fault { IfErr result (IsDepthFirstFault (S.problem space.old) self.old.within) }
        ensures named { OnOk result (SearchIsNamed (S.task space.old) self.new) }
        ensures remembered { OnOk result (Remembers (S.problem space.old) (S.task space.old)
            (S.kept space.old) self.new.expansions) }
        ensures path_named { IfErr result (FaultIsNamed (S.task space.old)) }
    {
        if left <= self.most.as_slice()[k] {
            self.pass();
            return Ok(());
        }
        self.most[k] = left;
        if !self.reenters {
            self.pass();
            return Ok(());
        }
        self.enter(alloc, space, k, left)
    }

    /// The search node that was kept is neither too many nor accepted.
    fn fresh<S: SearchSpace>(
        &mut self,
        alloc: Global,
        space: &mut S,
        nodes: usize,
        k: usize,
        left: u32,
    ) -> Result<(), SearchFault>
        requires arrived { HasArrived (S.problem space.old) nodes (S.kept space.old) self.old (arrival.Fresh k) left }
        requires refused { Judged (S.problem space.old) nodes (pairs_of (S.kept space.old)) self.old k left None }
        requires named { SearchIsNamed (S.task space.old) self.old }
        requires remembered { Remembers (S.problem space.old) (S.task space.old) (S.kept space.old) self.old.expansions }
        ensures same { HasSameTask S.task S.problem space.old space.new }
        ensures kept { S.kept space.new ≡ S.kept space.old }
        ensures events { self.new.events ≡ self.old.events }
        ensures turned { OnOk result (TurnsBy (S.problem space.old) nodes (S.kept space.old)
            self.old self.new (arrival.Fresh k) left None) }
        ensures fault { IfErr result (IsDepthFirstFault (S.problem space.old) self.old.within) }
        ensures named { OnOk result (SearchIsNamed (S.task space.old) self.new) }
        ensures remembered { OnOk result (Remembers (S.problem space.old) (S.task space.old)
            (S.kept space.old) self.new.expansions) }
        ensures path_named { IfErr result (FaultIsNamed (S.task space.old)) }
    {
        if self.most.push(left).is_err() {
            return Err(SearchFault::NoMemory);
        }
        if left == 0 {
            self.reenters = true;
            self.pass();
            return Ok(());
        }
        self.enter(alloc, space, k, left)
    }

    /// The search node that was kept is too many, or accepted.
    fn outcome_at<S: SearchSpace>(
        &self,
        alloc: Global,
        space: &mut S,
        nodes: usize,
        k: usize,
        left: u32,
    ) -> Result<Option<Outcome>, SearchFault>
        requires arrived { HasArrived (S.problem space.old) nodes (S.kept space.old) self.now (arrival.Fresh k) left }
        requires named { SearchIsNamed (S.task space.old) self.now }
        ensures same { HasSameTask S.task S.problem space.old space.new }
        ensures kept { S.kept space.new ≡ S.kept space.old }
        ensures judged { IfOk result (Judged (S.problem space.old) nodes (pairs_of (S.kept space.old)) self.now k left) }
        ensures fault { IfErr result (IsDepthFirstFault (S.problem space.old) self.now.within) }
        ensures plan_named { IfOk result (EndIsNamed (S.task space.old)) }
        ensures path_named { IfErr result (FaultIsNamed (S.task space.old)) }
    {
        if k >= nodes {
            return Ok(Some(Outcome::Spent));
        }
        match space.accepted(k) {
            Ok(true) => {
                let plan = path(alloc, self.stack.as_slice())?;
                Ok(Some(Outcome::Plan(plan)))
            }
            Ok(false) => Ok(None),
            Err(fault) => Err(levels_fault(alloc, self.stack.as_slice(), fault)),
        }
    }

    /// A search node is entered.
    pub fn enter<S: SearchSpace>(
        &mut self,
        alloc: Global,
        space: &mut S,
        at: usize,
        left: u32,
    ) -> Result<(), SearchFault>
        requires at { at < length (S.kept space.old) }
        requires named { SearchIsNamed (S.task space.old) self.old }
        requires remembered { Remembers (S.problem space.old) (S.task space.old) (S.kept space.old) self.old.expansions }
        ensures same { HasSameTask S.task S.problem space.old space.new }
        ensures kept { S.kept space.new ≡ S.kept space.old }
        ensures entered { OnOk result (IsEntered (S.problem space.old) (pairs_of (S.kept space.old))
            at left self.old.stack.items self.new.stack.items) }
        ensures rest { self.new ≡ record self.old { stack = self.new.stack; expansions = self.new.expansions } }
        ensures fault { IfErr result (IsEntryFault (S.problem space.old) (pairs_of (S.kept space.old))
            at (path_of self.old.stack.items)) }
        ensures named { OnOk result (SearchIsNamed (S.task space.old) self.new) }
        ensures remembered { OnOk result (Remembers (S.problem space.old) (S.task space.old)
            (S.kept space.old) self.new.expansions) }
        ensures path_named { IfErr result (FaultIsNamed (S.task space.old)) }
    {
        let actions = self.actions_of(alloc, space, at)?;
        let _count = actions.len();
        let level = Level {
            at,
            left,
            actions,
            tried: 0,
        };
        if self.stack.push(level).is_err() {
            return Err(SearchFault::NoMemory);
        }
        Ok(())
    }

    /// The executable actions of a search node: those that are remembered, or else those that the
    /// space lists.
    fn actions_of<S: SearchSpace>(
        &mut self,
        alloc: Global,
        space: &mut S,
        at: usize,
    ) -> Result<PackedActions, SearchFault>
        requires at { at < length (S.kept space.old) }
        requires named { SearchIsNamed (S.task space.old) self.old }
        requires remembered { Remembers (S.problem space.old) (S.task space.old) (S.kept space.old) self.old.expansions }
        ensures same { HasSameTask S.task S.problem space.old space.new }
        ensures kept { S.kept space.new ≡ S.kept space.old }
        ensures listed { IfOk result (IsListed (S.problem space.old) (S.task space.old) (S.kept space.old) at) }
        ensures rest { self.new ≡ record self.old { expansions = self.new.expansions } }
        ensures fault { IfErr result (IsEntryFault (S.problem space.old) (pairs_of (S.kept space.old))
            at (path_of self.old.stack.items)) }
        ensures remembered { OnOk result (Remembers (S.problem space.old) (S.task space.old)
            (S.kept space.old) self.new.expansions) }
        ensures path_named { IfErr result (FaultIsNamed (S.task space.old)) }
    {
        if let Some(actions) = self.remembered_actions(alloc, at)? {
            return Ok(actions);
        }
        match space.actions(at) {
            Ok(actions) => Ok(PackedActions::of(alloc, &actions)?),
            Err(fault) => Err(levels_fault(alloc, self.stack.as_slice(), fault)),
        }
    }

    /// The executable actions of a search node, where they are remembered. While no search node is
    /// entered again nothing is, and no memory is taken for it.
    fn remembered_actions(
        &mut self,
        alloc: Global,
        at: usize,
    ) -> Result<Option<PackedActions>, NoMemory>
        ensures stay { OnOk result (StayExpansions self.old.expansions self.new.expansions) }
        ensures actions { IfOk result (λ o. IfSome o (KnowsActions self.old.expansions at)) }
        ensures rest { self.new ≡ record self.old { expansions = self.new.expansions } }
    {
        if self.reenters {
            return self.expansions.take_actions(alloc, at);
        }
        Ok(None)
    }
}
