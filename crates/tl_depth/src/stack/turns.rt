// A step of the search: the top level tries its next action, or is done with.
ghost use Rattle.std.specs.Prelude.{◌≡◌, ◌<◌, ◌+◌, length, IfOk, IfErr, OnOk};
ghost use Rattle.tl_search.specs.NamedAnswers.{EndIsNamed, FaultIsNamed};
ghost use Rattle.tl_depth.specs.Expansions.{Remembers, CameOfTop, KeepNumbers};
ghost use Rattle.tl_depth.specs.NamedStacks.{SearchIsNamed};
ghost use Rattle.tl_search.specs.Kept.{AreKept};
ghost use Rattle.tl_search.specs.PairGraph.{pair_graph};
ghost use Rattle.tl_search.specs.Ends.{EndsIfAny};
ghost use Rattle.tl_search.specs.SameTask.{HasSameTask};
ghost use Rattle.tl_depth.specs.Endings.{KeepsLast};
ghost use Rattle.tl_depth.specs.Outcomes.{IsDepthFirstFault};
ghost use Rattle.tl_depth.specs.Ongoing.{IsTop};
ghost use Rattle.tl_depth.specs.Turns.{SearchGoesOn, Turns, TriesTop, CallsStayFew, OneCallStaysFew, KeepsHistory};

use crate::stack::{DepthFirst, past_range};
use std::alloc::Global;
use std::sync::ledger::Ledger;
use tl_search::{Arrival, Outcome, SearchFault, SearchSpace, SpaceFault};
use tl_terms::Steps;

impl DepthFirst {
    /// The top level takes a step.
    pub fn turn<S: SearchSpace, L: Ledger>(
        &mut self,
        alloc: Global,
        space: &mut S,
        nodes: usize,
        steps: &mut Steps<L>,
    ) -> Result<Option<Outcome>, SearchFault>
        requires ongoing { SearchGoesOn (S.problem space.old) nodes (S.kept space.old) self.old }
        requires some { 0 < length self.old.stack.items }
        requires named { SearchIsNamed (S.task space.old) self.old }
        requires remembered { Remembers (S.problem space.old) (S.task space.old) (S.kept space.old) self.old.expansions }
        ensures same { HasSameTask S.task S.problem space.old space.new }
        ensures turned { IfOk result (Turns (S.problem space.old) nodes (S.kept space.old) (S.kept space.new)
            self.old self.new steps.old steps.new) }
        ensures calls { CallsStayFew (S.problem space.old) nodes (S.kept space.old) (S.kept space.new)
            self.old steps.old steps.new }
        ensures history { OnOk result (KeepsHistory (S.problem space.old) (S.kept space.old)
            (S.kept space.new) self.old self.new) }
        ensures ends { IfOk result (EndsIfAny self.old.watch (S.kept space.new) self.new.events) }
        ensures fault { IfErr result (IsDepthFirstFault (S.problem space.old) self.old.within) }
        ensures named { OnOk result (SearchIsNamed (S.task space.old) self.new) }
        ensures remembered { OnOk result (Remembers (S.problem space.old) (S.task space.old)
            (S.kept space.new) self.new.expansions) }
        ensures plan_named { IfOk result (EndIsNamed (S.task space.old)) }
        ensures path_named { IfErr result (FaultIsNamed (S.task space.old)) }
    {
        let top = self.stack.as_slice().len() - 1;
        let level = &self.stack.as_slice()[top];
        if level.actions.len() <= level.tried {
            self.leave();
            return Ok(None);
        }
        let left = level.left - 1;
        let arrival = self.attempt(alloc, space, nodes, left, steps)?;
        self.arrived(alloc, space, nodes, arrival, left)
    }

    /// The top level's next action is tried, and what arrives is reported: what is remembered, or
    /// else what the space answers.
    fn attempt<S: SearchSpace, L: Ledger>(
        &mut self,
        alloc: Global,
        space: &mut S,
        nodes: usize,
        left: u32,
        steps: &mut Steps<L>,
    ) -> Result<Arrival, SearchFault>
        requires ongoing { SearchGoesOn (S.problem space.old) nodes (S.kept space.old) self.old }
        requires top { IsTop self.old.stack.items left }
        requires named { SearchIsNamed (S.task space.old) self.old }
        requires remembered { Remembers (S.problem space.old) (S.task space.old) (S.kept space.old) self.old.expansions }
        ensures same { HasSameTask S.task S.problem space.old space.new }
        ensures arrived { IfOk result (TriesTop (S.problem space.old) nodes (S.kept space.old) (S.kept space.new)
            self.old self.new left) }
        ensures calls { OneCallStaysFew (S.problem space.old) nodes (S.kept space.old) (S.kept space.new) self.old }
        ensures history { OnOk result (KeepsHistory (S.problem space.old) (S.kept space.old)
            (S.kept space.new) self.old self.new) }
        ensures ends { IfOk result (KeepsLast self.old.watch (S.kept space.new) self.new.events) }
        ensures rest { self.new ≡ record self.old { events = self.new.events; expansions = self.new.expansions } }
        ensures ticks { steps.new ≡ steps.old + 1 }
        ensures fault { IfErr result (IsDepthFirstFault (S.problem space.old) self.old.within) }
        ensures named { OnOk result (SearchIsNamed (S.task space.old) self.new) }
        ensures remembered { OnOk result (Remembers (S.problem space.old) (S.task space.old)
            (S.kept space.new) self.new.expansions) }
        ensures path_named { IfErr result (FaultIsNamed (S.task space.old)) }
    {
        let top = self.stack.as_slice().len() - 1;
        let level = &self.stack.as_slice()[top];
        if let Some(known) = self.expansions.arrival(level.at, level.tried) {
            steps.tick();
            self.report(alloc, known)?;
            return Ok(known);
        }
        let arrival = self.call(alloc, space, nodes, left, steps)?;
        self.remember_arrival(arrival)?;
        Ok(arrival)
    }

    /// The space is asked what comes of the top level's next action, and this is reported.
    fn call<S: SearchSpace, L: Ledger>(
        &mut self,
        alloc: Global,
        space: &mut S,
        nodes: usize,
        left: u32,
        steps: &mut Steps<L>,
    ) -> Result<Arrival, SearchFault>
        requires ongoing { SearchGoesOn (S.problem space.old) nodes (S.kept space.old) self.old }
        requires top { IsTop self.old.stack.items left }
        requires named { SearchIsNamed (S.task space.old) self.old }
        ensures same { HasSameTask S.task S.problem space.old space.new }
        ensures arrived { IfOk result (TriesTop (S.problem space.old) nodes (S.kept space.old) (S.kept space.new)
            self.old self.new left) }
        ensures calls { OneCallStaysFew (S.problem space.old) nodes (S.kept space.old) (S.kept space.new) self.old }
        ensures history { OnOk result (KeepsHistory (S.problem space.old) (S.kept space.old)
            (S.kept space.new) self.old self.new) }
        ensures ends { IfOk result (KeepsLast self.old.watch (S.kept space.new) self.new.events) }
        ensures rest { self.new ≡ record self.old { events = self.new.events } }
        ensures ticks { steps.new ≡ steps.old + 1 }
        ensures fault { IfErr result (IsDepthFirstFault (S.problem space.old) self.old.within) }
        ensures named { OnOk result (SearchIsNamed (S.task space.old) self.new) }
        ensures came { IfOk result (CameOfTop (S.problem space.old) (S.kept space.new) self.old.stack.items) }
        ensures kept { OnOk result (AreKept (pair_graph (S.problem space.old)) (S.kept space.new)) }
        ensures grows { OnOk result (KeepNumbers (S.kept space.old) (S.kept space.new)) }
        ensures path_named { IfErr result (FaultIsNamed (S.task space.old)) }
    {
        let top = self.stack.as_slice().len() - 1;
        let level = &self.stack.as_slice()[top];
        let Ok(action) = level.actions.get(alloc, level.tried) else {
            steps.tick();
            return Err(SearchFault::NoMemory);
        };
        let arrival = match space.child(level.at, &action, steps) {
            Ok(arrival) => arrival,
            Err(SpaceFault::RangeHere(note)) => {
                return Err(past_range(alloc, &self.stack.as_slice()[..top], note));
            }
            Err(SpaceFault::RangeAfter(note)) => {
                return Err(past_range(alloc, self.stack.as_slice(), note));
            }
            Err(SpaceFault::NoMemory) => return Err(SearchFault::NoMemory),
        };
        self.report(alloc, arrival)?;
        Ok(arrival)
    }
}
