// What a search has beside its space: the stack, and with how many remaining actions each search
// node was met.
ghost use Rattle.std.specs.Prelude.{◌≡◌, [], ◌∷◌, IfOk, OnOk};
ghost use Rattle.tl_search.specs.Faults.{IsFaultAfter, IsOfPair, TellsPair};
ghost use Rattle.tl_depth.specs.Levels.{path_of};
ghost use Rattle.tl_depth.specs.Stacks.{IsStepped, IsUnfinished, PassesTop, LosesTop, LeavesTop, TellsTop};
ghost use Rattle.tl_depth.specs.Expansions.{GainsTop, LearnsTop};

mod arrivals;
mod turns;
mod whole;

use crate::expansions::Expansions;
use crate::level::Level;
use std::alloc::Global;
use tl_eval::RangeNote;
use tl_search::{Arrival, Events, SearchFault, SpaceFault, report_arrival};
use tl_syntax::{Actions, NoMemory};

/// What the search has beside its space.
#[derive(Drop)]
pub struct DepthFirst {
    /// How many actions a plan may have.
    pub within: u32,
    /// Whether events are wanted.
    pub watch: bool,
    /// Whether a kept search node is entered again where it is met with more remaining actions than
    /// ever before: from the beginning where events are wanted, and else from the first search node
    /// on that was met with none.
    pub reenters: bool,
    /// With how many remaining actions each search node was met, at most.
    pub most: Vec<u32>,
    /// The levels of the stack, the root's first.
    pub stack: Vec<Level>,
    /// What is remembered of the search nodes' actions.
    pub expansions: Expansions,
    /// The events so far.
    pub events: Events,
}

/// The actions that the levels are at.
pub fn path(alloc: Global, levels: &[Level]) -> Result<Actions, NoMemory>
    ensures { IfOk result (λ path. path ≡ path_of levels.now) }
{
    let mut found = Actions::new(alloc);
    for level in levels {
        if level.tried < level.actions.len() {
            let action = level.actions.get(alloc, level.tried)?;
            found.push(action)?;
        }
    }
    Ok(found)
}

/// The fault at an operation past range after the actions that the levels are at, or want of memory
/// where there is no room for them.
pub fn past_range(alloc: Global, levels: &[Level], note: RangeNote) -> SearchFault
    ensures { IsFaultAfter (path_of levels.now) note result }
{
    match path(alloc, levels) {
        Ok(path) => SearchFault::Range { path, note },
        Err(_) => SearchFault::NoMemory,
    }
}

/// The fault of a call of the space that looks at the search node that the levels lead to.
pub fn levels_fault(alloc: Global, levels: &[Level], fault: SpaceFault) -> SearchFault
    requires { IsOfPair fault }
    ensures { TellsPair (path_of levels.now) fault result }
{
    match fault {
        SpaceFault::RangeHere(note) => past_range(alloc, levels, note),
        SpaceFault::RangeAfter(_) => unreachable!(),
        SpaceFault::NoMemory => SearchFault::NoMemory,
    }
}

impl DepthFirst {
    /// The top level is done with its next action.
    pub fn pass(&mut self)
        requires { IsStepped self.old.stack.items }
        ensures stack { PassesTop self.old.stack.items self.new.stack.items }
        ensures rest { self.new ≡ record self.old { stack = self.new.stack } }
    {
        let len = self.stack.as_slice().len();
        self.stack[len - 1].tried += 1;
    }

    /// The top level is done with. Its actions are remembered.
    pub fn leave(&mut self)
        requires { IsUnfinished self.old.stack.items }
        ensures root { (c : Level) → self.old.stack.items ≡ c ∷ [] → self.new.stack.items ≡ [] }
        ensures stack { LeavesTop self.old.stack.items self.new.stack.items }
        ensures remembered { GainsTop self.old.stack.items self.old.expansions self.new.expansions }
        ensures rest { self.new ≡ record self.old { stack = self.new.stack; expansions = self.new.expansions } }
    {
        let len = self.stack.as_slice().len();
        self.remember_top();
        if len > 1 {
            self.stack[len - 2].tried += 1;
        }
    }

    /// The top level is taken off the stack, and its actions are remembered.
    fn remember_top(&mut self)
        ensures stack { LosesTop self.old.stack.items self.new.stack.items }
        ensures remembered { GainsTop self.old.stack.items self.old.expansions self.new.expansions }
        ensures rest { self.new ≡ record self.old { stack = self.new.stack; expansions = self.new.expansions } }
    {
        if let Some(level) = self.stack.pop() {
            self.expansions.give_back(level.at, level.actions);
        }
    }

    /// What came of the top level's next action is remembered.
    pub fn remember_arrival(&mut self, arrival: Arrival) -> Result<(), NoMemory>
        requires { IsStepped self.old.stack.items }
        ensures remembered { OnOk result (LearnsTop self.old.stack.items self.old.expansions self.new.expansions arrival) }
        ensures rest { self.new ≡ record self.old { expansions = self.new.expansions } }
    {
        let top = self.stack.as_slice().len() - 1;
        let level = &self.stack[top];
        self.expansions
            .remember_arrival(level.at, level.tried, arrival)
    }

    /// Reports what came of the top level's next action, where events are wanted.
    #[inline(always)]
    pub fn report(&mut self, alloc: Global, arrival: Arrival) -> Result<(), NoMemory>
        requires { IsStepped self.old.stack.items }
        ensures told { OnOk result (TellsTop self.old self.new arrival) }
        ensures rest { self.new ≡ record self.old { events = self.new.events } }
    {
        if self.watch {
            self.tell(alloc, arrival)
        } else {
            Ok(())
        }
    }

    /// The same, where events are wanted.
    #[inline(never)]
    fn tell(&mut self, alloc: Global, arrival: Arrival) -> Result<(), NoMemory>
        requires { IsStepped self.old.stack.items }
        ensures told { OnOk result (TellsTop self.old self.new arrival) }
        ensures rest { self.new ≡ record self.old { events = self.new.events } }
    {
        let top = self.stack.as_slice().len() - 1;
        let level = &self.stack[top];
        let action = level.actions.get(alloc, level.tried)?;
        report_arrival(
            alloc,
            &mut self.events,
            self.watch,
            level.at,
            &action,
            arrival,
        )
    }
}
