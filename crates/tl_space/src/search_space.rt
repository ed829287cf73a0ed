// A space as what a search sees.

use crate::Space;
use std::alloc::Global;
use std::sync::ledger::Ledger;
use tl_search::{Arrival, SearchSpace, SpaceFault};
use tl_syntax::{Action, Actions, NoMemory};
use tl_terms::Steps;

impl SearchSpace for Space {
    ghost use Rattle.tl_space.specs.Spaces.{task_of, problem_of, kept_of};

    ghost task = { λ s. task_of s };

    ghost problem = { λ s. problem_of s };

    ghost kept = { λ s. kept_of s };

    fn root(&mut self) -> Result<Arrival, SpaceFault> {
        Space::root(self)
    }

    fn actions(&mut self, at: usize) -> Result<Actions, SpaceFault> {
        Space::actions(self, at)
    }

    fn child<L: Ledger>(
        &mut self,
        at: usize,
        a: &Action,
        steps: &mut Steps<L>,
    ) -> Result<Arrival, SpaceFault> {
        Space::child(self, at, a, steps)
    }

    fn accepted(&mut self, at: usize) -> Result<bool, SpaceFault> {
        Space::accepted(self, at)
    }

    fn count(&self) -> usize {
        self.kept()
    }

    fn path(&self, alloc: Global, at: usize) -> Result<Actions, NoMemory> {
        Space::path(self, alloc, at)
    }
}
