// The search node after an action.
ghost use Rattle.std.specs.Prelude.{◌≡◌, ◌<◌, ◌+◌, length, IsTrue, IfOk, IfErr, IfNone, IfSome, OnErr};
ghost use Rattle.tl_action.specs.Actions.{ArgumentsAreNamed};
ghost use Rattle.tl_search.specs.Calls.{IsExecutableAt, ChildArrives, IsChildFault};
ghost use Rattle.tl_search.specs.Kept.{AreKept};
ghost use Rattle.tl_search.specs.PairGraph.{pair_graph};
ghost use Rattle.tl_space.specs.Inner.{node_in, AreNumbersIn, KeepsPairs, MeetsOneMore, IsLastUnmet, IsToKeep, IsChildKey, IsChildPruned, IsProgressFault, way_after, IsWalk, LeadsTo, ArrivesBy, IsKeptLast};
ghost use Rattle.tl_space.specs.Spaces.{problem_of, name_count, kept_of, Grows};

use super::Space;
use crate::numbers::{Found, Met, Numbers};
use std::sync::ledger::Ledger;
use tl_action::Here;
use tl_eval::EvalFault;
use tl_progress::{FactChanges, is_broken_by};
use tl_search::{Arrival, SpaceFault};
use tl_syntax::{Action, NoMemory};
use tl_terms::Steps;

impl Space {
    /// The search node after an executable action of the search node `at` arrives: pruned exactly
    /// where its residual is FALSE, seen exactly where it is kept already, and else kept under the
    /// next number, with the path of `at` and the action. Each call counts one step.
    pub fn child<L: Ledger>(
        &mut self,
        at: usize,
        a: &Action,
        steps: &mut Steps<L>,
    ) -> Result<Arrival, SpaceFault>
        requires at { at < length (kept_of self.old) }
        requires executable { IsExecutableAt (problem_of self.old) (kept_of self.old) at a.now }
        ensures grows { Grows self.old self.new }
        ensures arrival { IfOk result (ChildArrives (problem_of self.old) (kept_of self.old) (kept_of self.new) at a.now) }
        ensures kept { AreKept (pair_graph (problem_of self.new)) (kept_of self.new) }
        ensures refused { OnErr result (kept_of self.new ≡ kept_of self.old) }
        ensures cause { IfErr result (IsChildFault (problem_of self.old) (kept_of self.old) at a.now) }
        ensures ticks { steps.new ≡ steps.old + 1 }
    {
        let before = self.worlds.len();
        let key = match self.child_key(at, a, steps) {
            Ok(Some(key)) => key,
            Ok(None) => return Ok(Arrival::Pruned),
            Err(fault) => return Err(fault),
        };
        let is_new = key.world == before;
        match self.arrive_after(key, is_new, at, a) {
            Ok(arrival) => Ok(arrival),
            Err(EvalFault::Range(note)) => Err(SpaceFault::RangeAfter(note)),
            Err(EvalFault::NoMemory) => Err(SpaceFault::NoMemory),
        }
    }

    /// The search node after an action of the search node `at` arrives, in this world with this
    /// formula. The action is copied only for a new search node.
    fn arrive_after(
        &mut self,
        key: Numbers,
        is_new: bool,
        at: usize,
        a: &Action,
    ) -> Result<Arrival, EvalFault>
        requires key { AreNumbersIn self.old key }
        requires unmet { IsTrue is_new → IsLastUnmet self.old key.world }
        requires at { at < length (kept_of self.old) }
        requires named { ArgumentsAreNamed (name_count self.old) a.now }
        requires walk { LeadsTo self.old (way_after self.old at a.now) key }
        ensures grows { Grows self.old self.new }
        ensures arrival { IfOk result (ArrivesBy self.old self.new key (way_after self.old at a.now)) }
        ensures refused { OnErr result (kept_of self.new ≡ kept_of self.old) }
        ensures cause { IfErr result (IsProgressFault self.old key) }
    {
        if is_new {
            return self.arrive_new(key, at, a);
        }
        match self.find(key) {
            Ok(Found::Known(arrival)) => Ok(arrival),
            Ok(Found::New(numbers)) => match self.keep_after(key, numbers, at, a) {
                Ok(k) => Ok(Arrival::Fresh(k)),
                Err(_) => Err(EvalFault::NoMemory),
            },
            Err(fault) => Err(fault),
        }
    }

    /// The search node after an action of the search node `at` arrives, in this new world with this
    /// formula. Where it is pruned the world is let go again, and nothing is remembered of it.
    #[inline(never)]
    fn arrive_new(&mut self, key: Numbers, at: usize, a: &Action) -> Result<Arrival, EvalFault>
        requires key { AreNumbersIn self.old key }
        requires unmet { IsLastUnmet self.old key.world }
        requires at { at < length (kept_of self.old) }
        requires named { ArgumentsAreNamed (name_count self.old) a.now }
        requires walk { LeadsTo self.old (way_after self.old at a.now) key }
        ensures grows { Grows self.old self.new }
        ensures arrival { IfOk result (ArrivesBy self.old self.new key (way_after self.old at a.now)) }
        ensures refused { OnErr result (kept_of self.new ≡ kept_of self.old) }
        ensures cause { IfErr result (IsProgressFault self.old key) }
    {
        match self.find_in_new(key) {
            Ok(Found::Known(arrival)) => {
                self.forget_world(key.world);
                Ok(arrival)
            }
            Ok(Found::New(numbers)) => match self.keep_after(key, numbers, at, a) {
                Ok(k) => Ok(Arrival::Fresh(k)),
                Err(_) => Err(EvalFault::NoMemory),
            },
            Err(fault) => Err(fault),
        }
    }

    /// Keeps the new search node of these numbers, met first by an action of the search node `at`.
    fn keep_after(
        &mut self,
        key: Numbers,
        numbers: Numbers,
        at: usize,
        a: &Action,
    ) -> Result<usize, NoMemory>
        requires key { AreNumbersIn self.old key }
        requires new { IsToKeep self.old key numbers }
        requires at { at < length (kept_of self.old) }
        requires named { ArgumentsAreNamed (name_count self.old) a.now }
        requires walk { IsWalk self.old (way_after self.old at a.now) (node_in self.old numbers) }
        ensures grows { Grows self.old self.new }
        ensures number { IfOk result (λ k. k ≡ length (kept_of self.old)) }
        ensures kept { IfOk result (λ k. IsKeptLast self.old self.new (node_in self.old numbers) (way_after self.old at a.now)) }
        ensures refused { OnErr result (kept_of self.new ≡ kept_of self.old) }
    {
        let action = a.copy(self.alloc)?;
        self.keep(key, numbers, Met::After(at, action))
    }

    /// The numbers of the world after the action and of the search node's residual, which comes in
    /// there. None: what the action changes decides by itself that the residual leaves FALSE there,
    /// and no world is made.
    fn child_key<L: Ledger>(
        &mut self,
        at: usize,
        a: &Action,
        steps: &mut Steps<L>,
    ) -> Result<Option<Numbers>, SpaceFault>
        requires at { at < length (kept_of self.old) }
        requires executable { IsExecutableAt (problem_of self.old) (kept_of self.old) at a.now }
        ensures keeps { KeepsPairs self.old self.new }
        ensures met { MeetsOneMore self.old self.new }
        ensures numbers { IfOk result (λ o. IfSome o (AreNumbersIn self.new)) }
        ensures key { IfOk result (λ o. IfSome o (IsChildKey self.old self.new at a.now)) }
        ensures pruned { IfOk result (λ o. IfNone o (IsChildPruned self.old at a.now)) }
        ensures cause { IfErr result (IsChildFault (problem_of self.old) (kept_of self.old) at a.now) }
        ensures ticks { steps.new ≡ steps.old + 1 }
    {
        let from = self.numbers(at);
        let world = self.worlds.get(from.world);
        let here = Here {
            alloc: self.alloc,
            task: &self.task,
            world,
        };
        match self
            .changes
            .put_those_of(&here, &mut self.action_frame, a, steps)
        {
            Ok(()) => {}
            Err(EvalFault::Range(note)) => return Err(SpaceFault::RangeHere(note)),
            Err(EvalFault::NoMemory) => return Err(SpaceFault::NoMemory),
        }
        let dels = self.changes.dels.as_slice();
        let adds = self.changes.adds.as_slice();
        let changes = FactChanges { dels, adds };
        if is_broken_by(&self.nodes, from.label, &mut self.places, &changes) {
            return Ok(None);
        }
        match self.number_after(from.world) {
            Ok(world) => Ok(Some(Numbers {
                world,
                label: from.label,
            })),
            Err(_) => Err(SpaceFault::NoMemory),
        }
    }
}
