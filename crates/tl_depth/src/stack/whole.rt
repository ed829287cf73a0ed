// The search from its first search node on until nothing is left to expand.
ghost use Rattle.std.specs.Prelude.{◌≡◌, ◌≤◌, ℕ, [], slice_get, Some, None, IsTrue, false, IfOk, IfErr, OnOk};
ghost use Rattle.tl_search.specs.KeptPairs.{pairs_of};
ghost use Rattle.tl_search.specs.NamedAnswers.{OutcomeIsNamed, EndIsNamed, FaultIsNamed, EventsAreNamed};
ghost use Rattle.tl_depth.specs.Expansions.{Remembers};
ghost use Rattle.tl_depth.specs.NamedStacks.{SearchIsNamed, EndsUnnamed};
ghost use Rattle.tl_search.specs.History.{IsHistory};
ghost use Rattle.tl_search.specs.Ends.{Ends, EndsIfAny};
ghost use Rattle.tl_search.specs.SameTask.{HasSameTask};
ghost use Rattle.tl_depth.specs.Endings.{EndsUnkept};
ghost use Rattle.tl_depth.specs.Outcomes.{IsDepthFirstFault, IsDepthFirstOutcome, IsToldOutcome};
ghost use Rattle.tl_depth.specs.Reports.{AreFewSteps};
ghost use Rattle.tl_depth.specs.Tables.{IsUncut};
ghost use Rattle.tl_depth.specs.Turns.{SearchGoesOn};
ghost use Rattle.tl_depth.specs.Ongoing.{HasDoneNothing, HasRootAlone, BeginsSearch};

use crate::stack::DepthFirst;
use std::alloc::Global;
use std::sync::ledger::Ledger;
use tl_search::{Arrival, Event, Outcome, SearchFault, SearchSpace, report_root, root_fault};
use tl_syntax::Actions;
use tl_terms::Steps;

/// Whether some search node was met with no remaining action, and never with any.
fn is_cut(most: &[u32]) -> bool
    ensures cut { IsTrue result → (k : ℕ) × (slice_get most.now k ≡ Some 0) }
    ensures uncut { result ≡ false → IsUncut most.now }
{
    for left in most {
        if *left == 0 {
            return true;
        }
    }
    false
}

impl DepthFirst {
    /// The search, from its first search node on until nothing is left to expand.
    pub fn run<S: SearchSpace, L: Ledger>(
        &mut self,
        alloc: Global,
        space: &mut S,
        nodes: usize,
        steps: &mut Steps<L>,
    ) -> Result<Outcome, SearchFault>
        requires empty { S.kept space.old ≡ [] }
        requires nodes { 1 ≤ nodes }
        requires new { HasDoneNothing self.old }
        requires events { self.old.events ≡ [] }
        ensures same { HasSameTask S.task S.problem space.old space.new }
        ensures outcome { IfOk result (IsDepthFirstOutcome (S.problem space.old) self.old.within nodes
            (pairs_of (S.kept space.new))) }
        ensures calls { AreFewSteps (S.problem space.old) self.old.within (S.kept space.new) steps.old steps.new }
        ensures told { IfOk result (IsToldOutcome (S.problem space.old) self.old.within self.old.watch
            (pairs_of (S.kept space.new)) self.new.events) }
        ensures history { OnOk result (IsHistory (S.problem space.old) self.old.watch (S.kept space.new) self.new.events) }
        ensures ends { IfOk result (Ends self.old.watch (S.kept space.new) self.new.events) }
        ensures fault { IfErr result (IsDepthFirstFault (S.problem space.old) self.old.within) }
        ensures events_named { OnOk result (EventsAreNamed (S.task space.old) self.new.events) }
        ensures plan_named { IfOk result (OutcomeIsNamed (S.task space.old)) }
        ensures path_named { IfErr result (FaultIsNamed (S.task space.old)) }
    {
        match self.begin(alloc, space, nodes)? {
            Some(outcome) => return Ok(outcome),
            None => {}
        }
        'turns: while self.stack.as_slice().len() > 0 {
            match self.turn(alloc, space, nodes, steps)? {
                Some(outcome) => return Ok(outcome),
                None => {}
            }
        }
        Ok(self.none(space, nodes))
    }

    /// The first search node begins the search, or ends it.
    fn begin<S: SearchSpace>(
        &mut self,
        alloc: Global,
        space: &mut S,
        nodes: usize,
    ) -> Result<Option<Outcome>, SearchFault>
        requires empty { S.kept space.old ≡ [] }
        requires nodes { 1 ≤ nodes }
        requires new { HasDoneNothing self.old }
        requires events { self.old.events ≡ [] }
        ensures same { HasSameTask S.task S.problem space.old space.new }
        ensures begun { IfOk result (BeginsSearch (S.problem space.old) nodes (pairs_of (S.kept space.new)) self.old self.new) }
        ensures history { OnOk result (IsHistory (S.problem space.old) self.old.watch (S.kept space.new) self.new.events) }
        ensures ends { IfOk result (EndsIfAny self.old.watch (S.kept space.new) self.new.events) }
        ensures fault { IfErr result (IsDepthFirstFault (S.problem space.old) self.old.within) }
        ensures named { OnOk result (SearchIsNamed (S.task space.old) self.new) }
        ensures remembered { OnOk result (Remembers (S.problem space.old) (S.task space.old)
            (S.kept space.new) self.new.expansions) }
        ensures plan_named { IfOk result (EndIsNamed (S.task space.old)) }
        ensures path_named { IfErr result (FaultIsNamed (S.task space.old)) }
    {
        match space.root() {
            Ok(Arrival::Fresh(_)) => {}
            Ok(Arrival::Seen(_)) => unreachable!(),
            Ok(Arrival::Pruned) => {
                report_root(&mut self.events, self.watch, Event::RootPruned)?;
                return Ok(Some(Outcome::NoPlan));
            }
            Err(fault) => return Err(root_fault(alloc, fault)),
        }
        report_root(&mut self.events, self.watch, Event::RootKept)?;
        match space.accepted(0) {
            Ok(true) => return Ok(Some(Outcome::Plan(Actions::new(alloc)))),
            Ok(false) => {}
            Err(fault) => return Err(root_fault(alloc, fault)),
        }
        self.begun(alloc, space, nodes)?;
        Ok(None)
    }

    /// The first search node, which is kept and not accepted, begins the search.
    fn begun<S: SearchSpace>(
        &mut self,
        alloc: Global,
        space: &mut S,
        nodes: usize,
    ) -> Result<(), SearchFault>
        requires first { HasRootAlone (S.problem space.old) nodes (pairs_of (S.kept space.old)) self.old }
        requires named { SearchIsNamed (S.task space.old) self.old }
        requires remembered { Remembers (S.problem space.old) (S.task space.old) (S.kept space.old) self.old.expansions }
        ensures same { HasSameTask S.task S.problem space.old space.new }
        ensures kept { S.kept space.new ≡ S.kept space.old }
        ensures events { self.new.events ≡ self.old.events }
        ensures begun { OnOk result (BeginsSearch (S.problem space.old) nodes
            (pairs_of (S.kept space.new)) self.old self.new None) }
        ensures fault { IfErr result (IsDepthFirstFault (S.problem space.old) self.old.within) }
        ensures named { OnOk result (SearchIsNamed (S.task space.old) self.new) }
        ensures remembered { OnOk result (Remembers (S.problem space.old) (S.task space.old)
            (S.kept space.new) self.new.expansions) }
        ensures path_named { IfErr result (FaultIsNamed (S.task space.old)) }
    {
        let left = self.within;
        if self.most.push(left).is_err() {
            return Err(SearchFault::NoMemory);
        }
        if left == 0 {
            self.reenters = true;
            return Ok(());
        }
        self.enter(alloc, space, 0, left)
    }

    /// Nothing is left to expand.
    fn none<S: SearchSpace>(&self, space: &S, nodes: usize) -> Outcome
        requires ongoing { SearchGoesOn (S.problem space.now) nodes (S.kept space.now) self.now }
        requires none { self.now.stack.items ≡ [] }
        ensures outcome { IsDepthFirstOutcome (S.problem space.now) self.now.within nodes
            (pairs_of (S.kept space.now)) result }
        ensures ends { EndsUnkept result }
        ensures named { EndsUnnamed result }
        ensures told { IsToldOutcome (S.problem space.now) self.now.within self.now.watch
            (pairs_of (S.kept space.now)) self.now.events result }
    {
        if is_cut(self.most.as_slice()) {
            return Outcome::NoneWithin;
        }
        Outcome::NoPlan
    }
}
