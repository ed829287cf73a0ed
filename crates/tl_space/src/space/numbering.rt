// Worlds and formulas get their numbers, and a world is let go. The search nodes stay.
ghost use Rattle.std.specs.Prelude.{◌≡◌, ◌<◌, length, slice_get, Some, IfOk, IfErr};
ghost use Rattle.tl_action.specs.ChangedWorlds.{world_after};
ghost use Rattle.tl_nodes.specs.Numbering.{Keeps};
ghost use Rattle.tl_nodes.specs.Numbers.{trees, Denotes};
ghost use Rattle.tl_space.specs.Inner.{arriving_in, IsLabelIn, AreNumbersIn, KeepsPairs, KeepsMet, MeetsOneMore, IsLastUnmet, IsProgressFault};
ghost use Rattle.tl_space.specs.Kept.{world_at};
ghost use Rattle.tl_space.specs.Spaces.{problem_of, name_count, kept_of, Grows};
ghost use Rattle.tl_known.specs.NumberedLists.{IsAdded};
ghost use Rattle.tl_known.specs.WorldNumbers.{worlds_in};
ghost use Rattle.tl_terms.specs.NamedWorlds.{WorldIsNamed};
ghost use Rattle.tl_terms.specs.ProblemMeaning.{plain_problem};

use super::Space;
use crate::numbers::Numbers;
use std::alloc::Global;
use tl_action::Changes;
use tl_eval::EvalFault;
use tl_known::Worlds;
use tl_nodes::Nodes;
use tl_progress::{Incoming, progress_kept};
use tl_syntax::NoMemory;
use tl_world::{Task, World};

/// The first world again, which shares its tables.
fn first_of(alloc: Global, task: &Task) -> Result<World, NoMemory>
    ensures { IfOk result (λ w. w ≡ (plain_problem task.now.problem).first) }
{
    task.first.changed(alloc, &[], &[], &[])
}

/// The number of the control formula.
fn number_control(nodes: &mut Nodes, task: &Task) -> Result<usize, NoMemory>
    ensures number { IfOk result (λ n. Denotes nodes.new n (plain_problem task.now.problem).control) }
    ensures kept { Keeps (trees nodes.old) (trees nodes.new) }
{
    nodes.of_tree(&task.problem.domain.control)
}

/// The number of the world that the changes make of the world of a number: the one that it has, or
/// else the next one.
fn number_changed(worlds: &mut Worlds, from: usize, changes: &Changes) -> Result<usize, NoMemory>
    requires { from < length (worlds_in worlds.old) }
    ensures number { IfOk result (λ n. slice_get (worlds_in worlds.new) n
        ≡ Some (world_after (world_at (worlds_in worlds.old) from) changes.now)) }
    ensures kept { IsAdded (worlds_in worlds.old)
        (world_after (world_at (worlds_in worlds.old) from) changes.now) (worlds_in worlds.new) }
{
    worlds.number_after(
        from,
        changes.dels.as_slice(),
        changes.adds.as_slice(),
        changes.sets.as_slice(),
    )
}

impl Space {
    /// The number of the world: the one that it has, or else the next one. A refused call drops the
    /// world.
    pub(crate) fn number_of_world(&mut self, world: World) -> Result<usize, NoMemory>
        requires named { WorldIsNamed (name_count self.old) world }
        ensures keeps { KeepsPairs self.old self.new }
        ensures number { IfOk result (λ n. slice_get (worlds_in self.new.worlds) n ≡ Some world) }
    {
        self.worlds.number(world)
    }

    /// The number of the world that the space's changes make of the world of a number. A world that
    /// has a number is seldom made for it.
    pub(crate) fn number_after(&mut self, from: usize) -> Result<usize, NoMemory>
        requires from { from < length (worlds_in self.old.worlds) }
        requires named { WorldIsNamed (name_count self.old)
            (world_after (world_at (worlds_in self.old.worlds) from) self.old.changes) }
        ensures keeps { KeepsPairs self.old self.new }
        ensures met { MeetsOneMore self.old self.new }
        ensures number { IfOk result (λ n. slice_get (worlds_in self.new.worlds) n
            ≡ Some (world_after (world_at (worlds_in self.old.worlds) from) self.old.changes)) }
    {
        number_changed(&mut self.worlds, from, &self.changes)
    }

    /// Lets the last world go, of which nothing is kept, with what progression found there. It
    /// takes no memory.
    pub(crate) fn forget_world(&mut self, world: usize)
        requires { IsLastUnmet self.old world }
        ensures grows { Grows self.old self.new }
        ensures kept { kept_of self.new ≡ kept_of self.old }
    {
        self.residuals.forget(world);
        self.worlds.forget_last();
    }

    /// The number of the first world.
    pub(crate) fn number_of_first(&mut self) -> Result<usize, NoMemory>
        ensures keeps { KeepsPairs self.old self.new }
        ensures number { IfOk result (λ n. slice_get (worlds_in self.new.worlds) n ≡ Some (problem_of self.old).first) }
    {
        let first = first_of(self.alloc, &self.task)?;
        self.number_of_world(first)
    }

    /// The number of the control formula.
    pub(crate) fn number_of_control(&mut self) -> Result<usize, NoMemory>
        ensures keeps { KeepsPairs self.old self.new }
        ensures number { IfOk result (λ n. slice_get (trees self.new.nodes) n ≡ Some (problem_of self.old).control) }
        ensures label { IfOk result (IsLabelIn self.new) }
    {
        number_control(&mut self.nodes, &self.task)
    }

    /// The number of the arrival's formula progressed through its world.
    pub(crate) fn number_of_residual(&mut self, key: Numbers) -> Result<usize, EvalFault>
        requires { AreNumbersIn self.old key }
        ensures keeps { KeepsPairs self.old self.new }
        ensures met { KeepsMet self.old self.new }
        ensures number { IfOk result (λ n. slice_get (trees self.new.nodes) n ≡ Some (arriving_in self.old key).formula) }
        ensures label { IfOk result (IsLabelIn self.new) }
        ensures cause { IfErr result (IsProgressFault self.old key) }
    {
        let incoming = Incoming {
            world: key.world,
            formula: key.label,
        };
        progress_kept(
            &mut self.nodes,
            &self.task,
            self.worlds.get(key.world),
            &mut self.formula_frame,
            &mut self.residuals,
            incoming,
        )
    }
}
