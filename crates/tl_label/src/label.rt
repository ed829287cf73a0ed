// The label of a node.
ghost use Rattle.std.specs.Prelude.{◌≡◌, ◌<◌, length, IfOk};
ghost use Rattle.tl_label.specs.Labels.{label_text};
ghost use Rattle.tl_nodes.specs.NodeTrees.{tree_at};
ghost use Rattle.tl_nodes.specs.Numbers.{trees};
ghost use Rattle.tl_syntax.specs.Named.{IsNamed};

use crate::line::Line;
use crate::rests::{begin, go_on, next_rest};
use std::alloc::Global;
use tl_nodes::Nodes;
use tl_syntax::{Bytes, NoMemory, Problem};

/// The text of the formula of a number, as a domain file writes it, or the word `long` where it has
/// more than 10,000 bytes; no more are ever written. The values and variables in it have to be
/// named by the problem. It fails for want of memory alone.
pub fn label_text(
    alloc: Global,
    problem: &Problem,
    nodes: &Nodes,
    id: usize,
) -> Result<Bytes, NoMemory>
    requires id { id < length (trees nodes.now) }
    requires named { IsNamed (length problem.now.names) (tree_at (trees nodes.now) id) }
    ensures { IfOk result (λ text.
        text ≡ label_text problem.now.names problem.now.domain (tree_at (trees nodes.now) id)) }
{
    let mut line = Line::new(alloc);
    let mut rests = Vec::new(alloc);
    begin(problem, nodes, id, &mut line, &mut rests)?;
    while let Some(rest) = next_rest(&line, &mut rests) {
        go_on(problem, nodes, rest, &mut line, &mut rests)?;
    }
    line.finish(alloc)
}
