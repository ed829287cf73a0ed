// Joins of numbers.
ghost use Rattle.std.specs.Prelude.{◌≡◌, ◌<◌, length, IsTrue, OnOk};
ghost use Rattle.tl_nodes.specs.Fits.{all_below};
ghost use Rattle.tl_nodes.specs.Given.{join_of, GivesNumber};
ghost use Rattle.tl_nodes.specs.Numbering.{Keeps};
ghost use Rattle.tl_nodes.specs.Numbers.{trees, Denotes, tree_in};
ghost use Rattle.tl_progress.specs.Parts.{GathersPart};
ghost use Rattle.tl_syntax.specs.Junctions.{deciding_truth};
ghost use Rattle.tl_terms.specs.Progression.{constant};

use crate::numbers::Numbers;
use tl_nodes::{Node, Nodes};
use tl_syntax::{Junction, NoMemory};

/// The number of a constant.
pub(crate) fn constant_number(nodes: &Nodes, truth: bool) -> usize
    ensures number { Denotes nodes.now result (constant truth) }
    ensures small { result < 2 }
{
    let _ = nodes.len();
    if truth { 0 } else { 1 }
}

/// Whether the number's tree is the constant. It takes no memory.
pub(crate) fn is_constant(nodes: &Nodes, id: usize, truth: bool) -> bool
    requires { id < length (trees nodes.now) }
    ensures { IsTrue result → tree_in nodes.now id ≡ constant truth }
{
    match nodes.get(id) {
        Node::True => truth,
        Node::False => !truth,
        _ => false,
    }
}

/// Whether the number's tree is the constant that decides a join. It takes no memory.
pub(crate) fn decides(nodes: &Nodes, id: usize, junction: Junction) -> bool
    requires { id < length (trees nodes.now) }
    ensures { IsTrue result → tree_in nodes.now id ≡ constant (deciding_truth junction) }
{
    is_constant(nodes, id, junction.deciding_truth())
}

/// Adds a part to those of a join. The constant that the join drops is left out.
pub(crate) fn gather(
    nodes: &Nodes,
    parts: &mut Numbers,
    part: usize,
    junction: Junction,
) -> Result<(), NoMemory>
    requires parts { IsTrue (all_below (length (trees nodes.now)) parts.old) }
    requires part { part < length (trees nodes.now) }
    ensures below { OnOk result (IsTrue (all_below (length (trees nodes.now)) parts.new)) }
    ensures same { OnOk result (GathersPart nodes.now junction parts.old part parts.new) }
{
    if is_constant(nodes, part, !junction.deciding_truth()) {
        return Ok(());
    }
    parts.push(part)?;
    Ok(())
}

/// The number of the conjunction or of the disjunction of the parts.
pub(crate) fn join(
    nodes: &mut Nodes,
    parts: &[usize],
    junction: Junction,
) -> Result<usize, NoMemory>
    requires { IsTrue (all_below (length (trees nodes.old)) parts.now) }
    ensures kept { Keeps (trees nodes.old) (trees nodes.new) }
    ensures number { GivesNumber nodes.new (join_of nodes.old junction parts.now) result }
{
    match junction {
        Junction::All => nodes.and(parts),
        Junction::Any => nodes.or(parts),
    }
}
