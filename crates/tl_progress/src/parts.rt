// The parts of a conjunction or a disjunction, by their positions.
ghost use Rattle.std.specs.Prelude.{◌≡◌, ◌<◌, length, slice_get, Some};
ghost use Rattle.tl_nodes.specs.NodeTrees.{tree_at};
ghost use Rattle.tl_nodes.specs.Numbers.{trees};
ghost use Rattle.tl_progress.specs.Parts.{join_parts, IsPartAt};

use tl_nodes::{Node, Nodes};
use tl_syntax::Ids;

/// How many parts it has. It takes no memory.
pub(crate) fn part_count(nodes: &Nodes, at: usize) -> usize
    requires { at < length (trees nodes.now) }
    ensures { result ≡ length (join_parts (tree_at (trees nodes.now) at)) }
{
    match nodes.get(at) {
        Node::And(parts) => parts.len(),
        Node::Or(parts) => parts.len(),
        _ => 0,
    }
}

// One of the numbers.
fn part_of(parts: &Ids, i: usize) -> usize
    requires { i < length parts.now }
    ensures { slice_get parts.now i ≡ Some result }
{
    parts.as_slice()[i]
}

/// The number of a part. It takes no memory.
pub(crate) fn part_at(nodes: &Nodes, at: usize, i: usize) -> usize
    requires at { at < length (trees nodes.now) }
    requires i { i < length (join_parts (tree_at (trees nodes.now) at)) }
    ensures smaller { result < at }
    ensures tree { IsPartAt nodes.now at i result }
{
    match nodes.get(at) {
        Node::And(parts) => part_of(parts, i),
        Node::Or(parts) => part_of(parts, i),
        _ => 0,
    }
}
