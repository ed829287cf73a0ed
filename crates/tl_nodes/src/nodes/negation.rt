// Negation that simplifies.
ghost use Rattle.std.specs.Prelude.{◌≡◌, ◌<◌, length, OnErr};
ghost use Rattle.tl_nodes.specs.Given.{negation_of, GivesNumber};
ghost use Rattle.tl_nodes.specs.Numbering.{Keeps};
ghost use Rattle.tl_nodes.specs.Numbers.{trees, StaysIfKnown};

use super::Nodes;
use crate::Node;
use tl_syntax::NoMemory;

impl Nodes {
    /// The number of the part's negation: of a constant the other one, of a negation its part, else
    /// the negation.
    pub fn not(&mut self, part: usize) -> Result<usize, NoMemory>
        requires { part < length (trees self.old) }
        ensures number { GivesNumber self.new (negation_of self.old part) result }
        ensures known { StaysIfKnown self.old self.new (negation_of self.old part) }
        ensures kept { Keeps (trees self.old) (trees self.new) }
        ensures refused { OnErr result (trees self.new ≡ trees self.old) }
    {
        match self.get(part) {
            Node::True => Ok(1),
            Node::False => Ok(0),
            Node::Not(inner) => Ok(*inner),
            _ => self.intern(Node::Not(part)),
        }
    }
}
