// A search from the root on, level by level.
ghost use Rattle.std.specs.Prelude.{◌≡◌, ◌≤◌, ◌<◌, ◌+◌, [], IfOk, IfErr, OnOk, OnErr};
ghost use Rattle.tl_search.specs.NamedAnswers.{OutcomeIsNamed, EndIsNamed};
ghost use Rattle.tl_search.specs.NamedAnswers.{FaultIsNamed, EventsAreNamed};
ghost use Rattle.tl_search.specs.SameTask.{HasSameTask};
ghost use Rattle.tl_breadth.specs.Events.{ReportsSearch, ReportsRest, ReportsTurnIn};
ghost use Rattle.tl_breadth.specs.Events.{IsTicked, Ticks, EndsWithPath, EndsIfAny};
ghost use Rattle.tl_breadth.specs.Outcomes.{IsBreadthFirstOutcome, IsBreadthFirstFault};
ghost use Rattle.tl_breadth.specs.Outcomes.{IsAtRootIn, IsAtLevelIn, LeavesLevel, EndsEarly};

use std::alloc::Global;
use std::sync::ledger::Ledger;
use tl_search::{
    Arrival, Event, Events, Outcome, SearchFault, SearchSpace, report_root, root_fault,
};
use tl_terms::Steps;

/// What a search is given, and does not change.
#[derive(Drop)]
pub struct BreadthFirst {
    /// Where paths and events are stored.
    pub alloc: Global,
    /// How many actions a plan may have.
    pub within: u32,
    /// How many search nodes may be kept.
    pub nodes: usize,
    /// Whether events are wanted.
    pub watch: bool,
}

/// Kept search nodes of one distance, by their numbers.
#[derive(Clone, Copy)]
pub struct Level {
    /// The first of them.
    pub start: usize,
    /// The number after the last of them.
    pub end: usize,
    /// Their distance.
    pub depth: u32,
}

impl BreadthFirst {
    /// The root, and then all levels.
    pub fn outcome<S: SearchSpace, L: Ledger>(
        &self,
        space: &mut S,
        events: &mut Events,
        steps: &mut Steps<L>,
    ) -> Result<Outcome, SearchFault>
        requires empty { S.kept space.old ≡ [] }
        requires nodes { 1 ≤ self.now.nodes }
        requires events { events.old ≡ [] }
        ensures same { HasSameTask S.task S.problem space.old space.new }
        ensures outcome { IfOk result (IsBreadthFirstOutcome (S.problem space.old)
            self.now.within self.now.nodes (S.kept space.new)) }
        ensures reported { IfOk result (ReportsSearch self.now (S.problem space.old)
            steps.old (S.kept space.new) events.new steps.new) }
        ensures ticked { OnErr result (IsTicked (S.problem space.old) self.now.within steps.old
            (S.kept space.new) steps.new) }
        ensures ends { IfOk result (EndsWithPath self.now.watch (S.kept space.new) events.new) }
        ensures fault { IfErr result (IsBreadthFirstFault (S.problem space.old) self.now.within) }
        ensures plan_named { IfOk result (OutcomeIsNamed (S.task space.old)) }
        ensures path_named { IfErr result (FaultIsNamed (S.task space.old)) }
        ensures events_named { OnOk result (EventsAreNamed (S.task space.old) events.new) }
    {
        match space.root() {
            Ok(Arrival::Fresh(k)) => {
                report_root(events, self.watch, Event::RootKept)?;
                match self.outcome_at(space, k)? {
                    Some(outcome) => return Ok(outcome),
                    None => {}
                }
            }
            Ok(Arrival::Seen(_)) => unreachable!(),
            Ok(Arrival::Pruned) => {
                report_root(events, self.watch, Event::RootPruned)?;
                return Ok(Outcome::NoPlan);
            }
            Err(fault) => return Err(root_fault(self.alloc, fault)),
        }
        self.all_levels(space, events, steps)
    }

    /// From the root on.
    fn all_levels<S: SearchSpace, L: Ledger>(
        &self,
        space: &mut S,
        events: &mut Events,
        steps: &mut Steps<L>,
    ) -> Result<Outcome, SearchFault>
        requires level { IsAtRootIn self.now (S.problem space.old) (S.kept space.old) }
        requires events { EventsAreNamed (S.task space.old) events.old }
        ensures same { HasSameTask S.task S.problem space.old space.new }
        ensures outcome { IfOk result (IsBreadthFirstOutcome (S.problem space.old)
            self.now.within self.now.nodes (S.kept space.new)) }
        ensures reported { IfOk result (ReportsRest self.now (S.problem space.old)
            (S.kept space.old) (S.kept space.new) events.old events.new steps.old steps.new) }
        ensures ticked { OnErr result (Ticks (S.problem space.old) self.now.within self.now.watch
            (S.kept space.old) (S.kept space.new) 0 events.old steps.old steps.new) }
        ensures ends { IfOk result (EndsWithPath self.now.watch (S.kept space.new) events.new) }
        ensures fault { IfErr result (IsBreadthFirstFault (S.problem space.old) self.now.within) }
        ensures plan_named { IfOk result (OutcomeIsNamed (S.task space.old)) }
        ensures path_named { IfErr result (FaultIsNamed (S.task space.old)) }
        ensures events_named { OnOk result (EventsAreNamed (S.task space.old) events.new) }
    {
        let mut at = 0;
        for depth in 0..self.within {
            let end = space.count();
            let level = Level {
                start: at,
                end,
                depth,
            };
            match self.expand_level(space, level, events, steps)? {
                Some(outcome) => return Ok(outcome),
                None => at = end,
            }
        }
        if at == space.count() {
            Ok(Outcome::NoPlan)
        } else {
            Ok(Outcome::NoneWithin)
        }
    }

    /// All search nodes of a level are expanded.
    fn expand_level<S: SearchSpace, L: Ledger>(
        &self,
        space: &mut S,
        level: Level,
        events: &mut Events,
        steps: &mut Steps<L>,
    ) -> Result<Option<Outcome>, SearchFault>
        requires level { IsAtLevelIn self.now (S.problem space.old) (S.kept space.old) level }
        requires start { level.start ≤ level.end }
        requires depth { level.depth < self.now.within }
        requires events { EventsAreNamed (S.task space.old) events.old }
        ensures same { HasSameTask S.task S.problem space.old space.new }
        ensures outcome { IfOk result (LeavesLevel self.now (S.problem space.old) (S.kept space.new)
            level.end (level.depth + 1)) }
        ensures reported { IfOk result (ReportsTurnIn self.now (S.problem space.old)
            (S.kept space.old) (S.kept space.new) level.start level.end
            events.old events.new steps.old steps.new) }
        ensures ticked { OnErr result (Ticks (S.problem space.old) self.now.within self.now.watch
            (S.kept space.old) (S.kept space.new) level.start events.old steps.old steps.new) }
        ensures early { IfOk result EndsEarly }
        ensures ends { IfOk result (EndsIfAny self.now (S.kept space.new) events.new) }
        ensures fault { IfErr result (IsBreadthFirstFault (S.problem space.old) self.now.within) }
        ensures plan_named { IfOk result (EndIsNamed (S.task space.old)) }
        ensures path_named { IfErr result (FaultIsNamed (S.task space.old)) }
        ensures events_named { OnOk result (EventsAreNamed (S.task space.old) events.new) }
    {
        for at in level.start..level.end {
            match self.expand(space, at, events, steps)? {
                Some(outcome) => return Ok(Some(outcome)),
                None => {}
            }
        }
        Ok(None)
    }
}
