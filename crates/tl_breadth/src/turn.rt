// What a search does with the search node whose turn it is.
ghost use Rattle.std.specs.Prelude.{◌≡◌, ◌+◌, IfOk, IfErr, OnOk, OnErr};
ghost use Rattle.tl_search.specs.NamedAnswers.{IsNamedIn, EndIsNamed, FaultIsNamed, EventsAreNamed};
ghost use Rattle.tl_search.specs.SameTask.{HasSameTask};
ghost use Rattle.tl_breadth.specs.Events.{TicksArrivalIn, Ticks, ReportsArrivalIn, ReportsTurnIn};
ghost use Rattle.tl_breadth.specs.Events.{EndsAtLast, EndsIfAny};
ghost use Rattle.tl_breadth.specs.Outcomes.{IsBreadthFirstFault, EndsEarly, GrowsAfter};
ghost use Rattle.tl_breadth.specs.Outcomes.{AwaitsJudgementIn, HasTurnIn, IsReadyIn};
ghost use Rattle.tl_breadth.specs.Outcomes.{LeavesNext, LeavesTried, LeavesUnaccepted};

use crate::levels::BreadthFirst;
use std::sync::ledger::Ledger;
use tl_search::{
    Arrival, Events, Outcome, SearchFault, SearchSpace, child_fault, report_arrival,
    search_node_fault,
};
use tl_syntax::Action;
use tl_terms::Steps;

impl BreadthFirst {
    /// All actions of the search node whose turn it is are tried.
    pub fn expand<S: SearchSpace, L: Ledger>(
        &self,
        space: &mut S,
        at: usize,
        events: &mut Events,
        steps: &mut Steps<L>,
    ) -> Result<Option<Outcome>, SearchFault>
        requires ready { IsReadyIn self.now (S.problem space.old) (S.kept space.old) at }
        requires events { EventsAreNamed (S.task space.old) events.old }
        ensures same { HasSameTask S.task S.problem space.old space.new }
        ensures outcome { IfOk result (LeavesNext self.now (S.problem space.old)
            (S.kept space.new) (at + 1)) }
        ensures grows { OnOk result (GrowsAfter at (S.kept space.old) (S.kept space.new)) }
        ensures reported { IfOk result (ReportsTurnIn self.now (S.problem space.old)
            (S.kept space.old) (S.kept space.new) at (at + 1)
            events.old events.new steps.old steps.new) }
        ensures ticked { OnErr result (Ticks (S.problem space.old) self.now.within self.now.watch
            (S.kept space.old) (S.kept space.new) at events.old steps.old steps.new) }
        ensures early { IfOk result EndsEarly }
        ensures ends { IfOk result (EndsIfAny self.now (S.kept space.new) events.new) }
        ensures fault { IfErr result (IsBreadthFirstFault (S.problem space.old) self.now.within) }
        ensures plan_named { IfOk result (EndIsNamed (S.task space.old)) }
        ensures path_named { IfErr result (FaultIsNamed (S.task space.old)) }
        ensures events_named { OnOk result (EventsAreNamed (S.task space.old) events.new) }
    {
        let actions = match space.actions(at) {
            Ok(actions) => actions,
            Err(fault) => return Err(search_node_fault(self.alloc, space, at, fault)),
        };
        for a in actions.as_slice() {
            match self.arrive(space, at, a, events, steps)? {
                Some(outcome) => return Ok(Some(outcome)),
                None => {}
            }
        }
        Ok(None)
    }

    /// The search node after an action of the search node whose turn it is arrives.
    fn arrive<S: SearchSpace, L: Ledger>(
        &self,
        space: &mut S,
        at: usize,
        a: &Action,
        events: &mut Events,
        steps: &mut Steps<L>,
    ) -> Result<Option<Outcome>, SearchFault>
        requires turn { HasTurnIn self.now (S.problem space.old) (S.kept space.old) at a.now }
        requires named { IsNamedIn (S.task space.old) a.now }
        requires events { EventsAreNamed (S.task space.old) events.old }
        ensures same { HasSameTask S.task S.problem space.old space.new }
        ensures outcome { IfOk result (LeavesTried self.now (S.problem space.old) (S.kept space.old)
            (S.kept space.new) at a.now) }
        ensures grows { OnOk result (GrowsAfter at (S.kept space.old) (S.kept space.new)) }
        ensures reported { OnOk result (ReportsArrivalIn self.now (S.problem space.old)
            (S.kept space.old) (S.kept space.new) at a.now
            events.old events.new steps.old steps.new) }
        ensures ticked { OnErr result (TicksArrivalIn self.now (S.problem space.old)
            (S.kept space.old) (S.kept space.new) at a.now events.old steps.old steps.new) }
        ensures early { IfOk result EndsEarly }
        ensures ends { IfOk result (EndsIfAny self.now (S.kept space.new) events.new) }
        ensures fault { IfErr result (IsBreadthFirstFault (S.problem space.old) self.now.within) }
        ensures plan_named { IfOk result (EndIsNamed (S.task space.old)) }
        ensures path_named { IfErr result (FaultIsNamed (S.task space.old)) }
        ensures events_named { OnOk result (EventsAreNamed (S.task space.old) events.new) }
    {
        match space.child(at, a, steps) {
            Ok(Arrival::Fresh(k)) => {
                report_arrival(self.alloc, events, self.watch, at, a, Arrival::Fresh(k))?;
                self.outcome_at(space, k)
            }
            Ok(Arrival::Seen(k)) => {
                report_arrival(self.alloc, events, self.watch, at, a, Arrival::Seen(k))?;
                Ok(None)
            }
            Ok(Arrival::Pruned) => {
                report_arrival(self.alloc, events, self.watch, at, a, Arrival::Pruned)?;
                Ok(None)
            }
            Err(fault) => Err(child_fault(self.alloc, space, at, a, fault)),
        }
    }

    /// The last search node that was kept ends the search where there are too many or where it is
    /// accepted.
    pub fn outcome_at<S: SearchSpace>(
        &self,
        space: &mut S,
        k: usize,
    ) -> Result<Option<Outcome>, SearchFault>
        requires { AwaitsJudgementIn self.now (S.problem space.old) (S.kept space.old) k }
        ensures same { HasSameTask S.task S.problem space.old space.new }
        ensures kept { S.kept space.new ≡ S.kept space.old }
        ensures outcome { IfOk result (LeavesUnaccepted self.now (S.problem space.old)
            (S.kept space.old) (k + 1)) }
        ensures early { IfOk result EndsEarly }
        ensures last { IfOk result (EndsAtLast (S.kept space.old)) }
        ensures fault { IfErr result (IsBreadthFirstFault (S.problem space.old) self.now.within) }
        ensures plan_named { IfOk result (EndIsNamed (S.task space.old)) }
        ensures path_named { IfErr result (FaultIsNamed (S.task space.old)) }
    {
        if k == self.nodes {
            return Ok(Some(Outcome::Spent));
        }
        match space.accepted(k) {
            Ok(true) => {
                let plan = space.path(self.alloc, k)?;
                Ok(Some(Outcome::Plan(plan)))
            }
            Ok(false) => Ok(None),
            Err(fault) => Err(search_node_fault(self.alloc, space, k, fault)),
        }
    }
}
