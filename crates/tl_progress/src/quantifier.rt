// A quantifier that stands in a node, and its instances, one after another.
ghost use Rattle.std.specs.Prelude.{◌≡◌, ◌<◌, ◌≤◌, length, None};
ghost use Rattle.tl_eval.specs.Frames.{AreKept};
ghost use Rattle.tl_nodes.specs.Numbers.{trees, tree_in};
ghost use Rattle.tl_progress.specs.Calls.{FitsTask};
ghost use Rattle.tl_progress.specs.Quantifiers.{IsReader, Stands, vars_at, bound_at, StandsForBoundAt, ReadsPatternAt, HasSteppedOver, HasSteppedAt, GivesBack};
ghost use Rattle.tl_syntax.specs.Lists.{Each};

use tl_eval::{BoundPattern, BoundTuples, Env};
use tl_nodes::{Node, Nodes};
use tl_syntax::{Bound, Junction, Value, Vars};
use tl_world::{Task, World};

/// Goes on to the next instance: the variables get its values. False: there is none. It takes no
/// memory.
pub(crate) fn put_instance(env: &mut Env, vars: &Vars, tuples: &mut BoundTuples) -> bool
    requires slots { Each (λ s. s.slot < 32) vars.now }
    requires reads { IsReader vars.now tuples.old }
    ensures { HasSteppedOver vars.now tuples.old tuples.new env.old env.new result }
{
    if !tuples.next() {
        return false;
    }
    env.put_values(vars.as_slice(), tuples.values());
    true
}

/// A quantifier over the tree of a number, that stands in a node. Its variables and its bound are
/// read there again for each step, since the table of nodes grows between two steps.
#[derive(Clone, Copy)]
pub(crate) struct Quantifier {
    /// All instances, or any.
    pub junction: Junction,
    /// The number of the quantified formula.
    pub at: usize,
    /// The number of the tree below it.
    pub part: usize,
}

impl Quantifier {
    /// Makes the pattern that of its bound under the frame.
    #[inline(always)]
    pub fn open(self, nodes: &Nodes, task: &Task, env: &Env, pattern: &mut BoundPattern)
        requires at { self.at < length (trees nodes.now) }
        requires stands { Stands (trees nodes.now) self }
        requires fits { FitsTask task.now (tree_in nodes.now self.at) }
        ensures stands { StandsForBoundAt nodes.now self env.now pattern.new }
        ensures few { length (vars_at nodes.now self) ≤ 9 }
    {
        match nodes.get(self.at) {
            Node::ForAll(vars, bound, _) => pattern.open_in_place(task, env, vars, bound),
            Node::Exists(vars, bound, _) => pattern.open_in_place(task, env, vars, bound),
            _ => unreachable!(),
        }
    }

    /// Its bound.
    #[inline(always)]
    fn bound(self, nodes: &Nodes) -> &Bound
        requires at { self.at < length (trees nodes.now) }
        requires stands { Stands (trees nodes.now) self }
        ensures { result.now ≡ bound_at nodes.now self }
    {
        match nodes.get(self.at) {
            Node::ForAll(_, bound, _) => bound,
            Node::Exists(_, bound, _) => bound,
            _ => unreachable!(),
        }
    }

    /// The tuples of its bound, of which this is the pattern, in the world, before the first one.
    #[inline(always)]
    pub fn tuples<'a>(
        self,
        nodes: &Nodes,
        task: &'a Task,
        w: &'a World,
        pattern: &'a BoundPattern,
    ) -> BoundTuples<'a>
        requires at { self.at < length (trees nodes.now) }
        requires stands { Stands (trees nodes.now) self }
        ensures reads { ReadsPatternAt task.now w.now nodes.now self pattern.now result }
        ensures before { result.tuple ≡ None }
    {
        pattern.tuples(task, w, self.bound(nodes))
    }

    /// Puts what the slots of its variables have in the frame in place, for `give_back`.
    #[inline(always)]
    pub fn keep(self, nodes: &Nodes, env: &Env, outer: &mut [Option<Value>; 9])
        requires at { self.at < length (trees nodes.now) }
        requires stands { Stands (trees nodes.now) self }
        requires few { length (vars_at nodes.now self) ≤ 9 }
        ensures { AreKept (vars_at nodes.now self) env.now outer.new }
    {
        match nodes.get(self.at) {
            Node::ForAll(vars, _, _) => env.keep(vars.as_slice(), outer),
            Node::Exists(vars, _, _) => env.keep(vars.as_slice(), outer),
            _ => unreachable!(),
        }
    }

    /// Goes on to its next instance, as `put_instance` does.
    pub fn put_next(self, nodes: &Nodes, env: &mut Env, tuples: &mut BoundTuples) -> bool
        requires at { self.at < length (trees nodes.now) }
        requires stands { Stands (trees nodes.now) self }
        requires slots { Each (λ s. s.slot < 32) (vars_at nodes.now self) }
        requires reads { IsReader (vars_at nodes.now self) tuples.old }
        ensures { HasSteppedAt nodes.now self tuples.old tuples.new env.old env.new result }
    {
        match nodes.get(self.at) {
            Node::ForAll(vars, _, _) => put_instance(env, vars, tuples),
            Node::Exists(vars, _, _) => put_instance(env, vars, tuples),
            _ => false,
        }
    }

    /// Gives the slots of its variables back what they had.
    pub fn give_back(self, nodes: &Nodes, env: &mut Env, outer: &[Option<Value>; 9])
        requires at { self.at < length (trees nodes.now) }
        requires stands { Stands (trees nodes.now) self }
        requires slots { Each (λ s. s.slot < 32) (vars_at nodes.now self) }
        requires few { length (vars_at nodes.now self) ≤ 9 }
        ensures { GivesBack (vars_at nodes.now self) outer.now env.old env.new }
    {
        match nodes.get(self.at) {
            Node::ForAll(vars, _, _) => env.give_back(vars.as_slice(), outer),
            Node::Exists(vars, _, _) => env.give_back(vars.as_slice(), outer),
            _ => {}
        }
    }
}
