// One number for one layer.
ghost use Rattle.std.specs.Prelude.{◌≡◌, length, OnErr, IsTrue};
ghost use Rattle.tl_nodes.specs.Fits.{fits};
ghost use Rattle.tl_nodes.specs.Given.{node_over, GivesNumber};
ghost use Rattle.tl_nodes.specs.Numbering.{Keeps};
ghost use Rattle.tl_nodes.specs.Numbers.{trees, StaysIfKnown};

use super::Nodes;
use super::flags::temporal_of;
use super::marks::mark_of;
use crate::Node;
use tl_syntax::NoMemory;

impl Nodes {
    /// The number of the node's very tree, without simplification: the one that it has, or else the
    /// next one.
    /// A refused call drops the node and leaves all trees as they were.
    pub fn intern(&mut self, node: Node) -> Result<usize, NoMemory>
        requires { IsTrue (fits (length (trees self.old)) node) }
        ensures number { GivesNumber self.new (node_over self.old node) result }
        ensures known { StaysIfKnown self.old self.new (node_over self.old node) }
        ensures kept { Keeps (trees self.old) (trees self.new) }
        ensures refused { OnErr result (trees self.new ≡ trees self.old) }
    {
        let flag = temporal_of(self.temporal.as_slice(), &node);
        let mark = mark_of(self.marks.as_slice(), &node);
        match self.temporal.reserve(1) {
            Ok(()) => {}
            Err(_) => {
                drop(node);
                return Err(NoMemory);
            }
        }
        match self.marks.reserve(1) {
            Ok(()) => {}
            Err(_) => {
                drop(node);
                return Err(NoMemory);
            }
        }
        let (at, is_new) = self.table.insert_full(node)?;
        if is_new {
            self.temporal.push(flag).unwrap();
            self.marks.push(mark).unwrap();
        }
        Ok(at)
    }
}
