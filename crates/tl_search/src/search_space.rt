// What a search sees of a space.
ghost use Rattle.std.specs.Prelude.{◌≡◌, ◌+◌, ◌<◌, List, [], length, IfOk, IfErr, OnErr};
ghost use Rattle.tl_terms.specs.Problem.{PlainProblem};
ghost use Rattle.tl_world.specs.declared.task.Task.{Task};
ghost use Rattle.tl_search.specs.Kept.{AreKept};
ghost use Rattle.tl_search.specs.PairGraph.{pair_graph};
ghost use Rattle.tl_search.specs.KeptPairs.{KeptPair};
ghost use Rattle.tl_search.specs.SameTask.{HasSameTask};
ghost use Rattle.tl_search.specs.Causes.{IsRootFault};
ghost use Rattle.tl_search.specs.Calls.{IsExecutableAt, RootArrives, ChildArrives, ListsActionsAt, TellsAcceptance, IsPathOf, AreNamedIn, IsActionsFault, IsAcceptanceFault, IsChildFault};

use crate::{Arrival, SpaceFault};
use std::alloc::Global;
use std::sync::ledger::Ledger;
use tl_syntax::{Action, Actions, NoMemory};
use tl_terms::Steps;

/// A search space as a search sees it: search nodes of a world and a residual (Bacchus and Kabanza
/// 2000), each kept once under a number, with the path by which it was met first. No call changes
/// the task or a kept search node, and one that gives no answer can be made again.
pub trait SearchSpace {
    /// The task whose problem the space is of.
    ghost task: { Self → Task };

    /// The problem.
    ghost problem: { Self → PlainProblem };

    /// The search nodes that are kept, each with its path, by their numbers.
    ghost kept: { Self → List KeptPair };

    /// The search node of the empty path arrives. It is pruned or fresh, since nothing is kept
    /// before.
    fn root(&mut self) -> Result<Arrival, SpaceFault>
        requires empty { kept self.old ≡ [] }
        ensures same { HasSameTask task problem self.old self.new }
        ensures arrival { IfOk result (RootArrives (problem self.old) (kept self.old) (kept self.new)) }
        ensures kept { AreKept (pair_graph (problem self.new)) (kept self.new) }
        ensures refused { OnErr result (kept self.new ≡ kept self.old) }
        ensures cause { IfErr result (IsRootFault (problem self.old)) };

    /// The executable actions of a search node, each once, in action order.
    fn actions(&mut self, at: usize) -> Result<Actions, SpaceFault>
        requires at { at < length (kept self.old) }
        ensures same { HasSameTask task problem self.old self.new }
        ensures kept { kept self.new ≡ kept self.old }
        ensures actions { IfOk result (ListsActionsAt (problem self.old) (kept self.old) at) }
        ensures named { IfOk result (AreNamedIn (task self.old)) }
        ensures cause { IfErr result (IsActionsFault (problem self.old) (kept self.old) at) };

    /// The search node after an executable action of a search node arrives. Each call counts one
    /// step.
    fn child<L: Ledger>(
        &mut self,
        at: usize,
        a: &Action,
        steps: &mut Steps<L>,
    ) -> Result<Arrival, SpaceFault>
        requires at { at < length (kept self.old) }
        requires executable { IsExecutableAt (problem self.old) (kept self.old) at a.now }
        ensures same { HasSameTask task problem self.old self.new }
        ensures arrival { IfOk result (ChildArrives (problem self.old) (kept self.old) (kept self.new) at a.now) }
        ensures kept { AreKept (pair_graph (problem self.new)) (kept self.new) }
        ensures refused { OnErr result (kept self.new ≡ kept self.old) }
        ensures cause { IfErr result (IsChildFault (problem self.old) (kept self.old) at a.now) }
        ensures ticks { steps.new ≡ steps.old + 1 };

    /// Whether a search node is accepted: its world meets the goal, and its residual holds where
    /// that world is repeated for ever.
    fn accepted(&mut self, at: usize) -> Result<bool, SpaceFault>
        requires at { at < length (kept self.old) }
        ensures same { HasSameTask task problem self.old self.new }
        ensures kept { kept self.new ≡ kept self.old }
        ensures accepted { IfOk result (TellsAcceptance (problem self.old) (kept self.old) at) }
        ensures cause { IfErr result (IsAcceptanceFault (problem self.old) (kept self.old) at) };

    /// How many search nodes are kept, of which no two are the same.
    fn count(&self) -> usize
        ensures count { result ≡ length (kept self.now) }
        ensures kept { AreKept (pair_graph (problem self.now)) (kept self.now) };

    /// The path by which a search node was met first. It fails for want of memory alone.
    fn path(&self, alloc: Global, at: usize) -> Result<Actions, NoMemory>
        requires at { at < length (kept self.now) }
        ensures path { IfOk result (IsPathOf (kept self.now) at) }
        ensures named { IfOk result (AreNamedIn (task self.now)) };
}
