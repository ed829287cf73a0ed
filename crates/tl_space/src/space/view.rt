// What is kept.
ghost use Rattle.std.specs.Prelude.{◌≡◌, ◌<◌, length, slice_get, Some};
ghost use Rattle.tl_nodes.specs.NodeTrees.{tree_at};
ghost use Rattle.tl_nodes.specs.Numbers.{trees};
ghost use Rattle.tl_search.specs.Calls.{ForPair};
ghost use Rattle.tl_search.specs.Kept.{AreKept};
ghost use Rattle.tl_search.specs.PairGraph.{pair_graph};
ghost use Rattle.tl_space.specs.Inner.{node_in, AreNumbersIn};
ghost use Rattle.tl_space.specs.Spaces.{task_of, problem_of, name_count, kept_of, labels_of};
ghost use Rattle.tl_syntax.specs.Named.{IsNamed};
ghost use Rattle.tl_terms.specs.NamedWorlds.{WorldIsNamed};

use super::Space;
use crate::numbers::Numbers;
use tl_nodes::Nodes;
use tl_world::{Task, World};

impl Space {
    /// The numbers of the world and of the residual of a search node.
    pub(crate) fn numbers(&self, at: usize) -> Numbers
        requires { at < length (kept_of self.now) }
        ensures there { slice_get self.now.pairs.keys at ≡ Some result }
        ensures numbers { AreNumbersIn self.now result }
        ensures node { ForPair (kept_of self.now) at (λ x. x.node ≡ node_in self.now result) }
    {
        *self.pairs.get_index(at).unwrap()
    }

    /// How many search nodes are kept, of which no two are the same: their numbers are 0 up to it.
    /// It takes no memory.
    pub fn kept(&self) -> usize
        ensures count { result ≡ length (kept_of self.now) }
        ensures kept { AreKept (pair_graph (problem_of self.now)) (kept_of self.now) }
    {
        self.pairs.len()
    }

    /// The number of the search node's residual among the formulas of `nodes`. It takes no memory.
    pub fn label(&self, at: usize) -> usize
        requires { at < length (kept_of self.now) }
        ensures label { slice_get (labels_of self.now) at ≡ Some result }
        ensures residual { ForPair (kept_of self.now) at (λ x. slice_get (trees self.now.nodes) result ≡ Some x.node.formula) }
        ensures named { IsNamed (name_count self.now) (tree_at (trees self.now.nodes) result) }
    {
        self.numbers(at).label
    }

    /// The world of the search node. It takes no memory.
    pub fn world(&self, at: usize) -> &World
        requires { at < length (kept_of self.now) }
        ensures world { ForPair (kept_of self.now) at (λ x. x.node.world ≡ result.now) }
        ensures named { WorldIsNamed (name_count self.now) result.now }
    {
        self.worlds.get(self.numbers(at).world)
    }

    /// The formulas by numbers. It takes no memory.
    pub fn nodes(&self) -> &Nodes
        ensures { result.now ≡ self.now.nodes }
    {
        &self.nodes
    }

    /// The task. It takes no memory.
    pub fn task(&self) -> &Task
        ensures { result.now ≡ task_of self.now }
    {
        &self.task
    }
}
