// The numbers of whole formulas.
ghost use Rattle.std.specs.Prelude.{◌≡◌, length, IfOk, IsTrue};
ghost use Rattle.tl_nodes.specs.Fits.{all_below, fits};
ghost use Rattle.tl_nodes.specs.Given.{DenoteFormulas};
ghost use Rattle.tl_nodes.specs.NodeTrees.{tree_of_node};
ghost use Rattle.tl_nodes.specs.Numbering.{Keeps};
ghost use Rattle.tl_nodes.specs.Numbers.{trees, Denotes};
ghost use Rattle.tl_syntax.specs.TreeOfFormula.{tree_of_formula};

use super::Nodes;
use crate::Node;
use tl_syntax::{Formula, Formulas, Ids, NoMemory};

impl Nodes {
    /// The number of the formula's very tree, without simplification. It goes as deep as the
    /// formula is nested.
    /// A refused call may have added numbers for parts of the formula.
    #[cycle(of_tree)]
    pub fn of_tree(&mut self, f: &Formula) -> Result<usize, NoMemory>
        ensures number { IfOk result (λ i. Denotes self.new i (tree_of_formula f.now)) }
        ensures kept { Keeps (trees self.old) (trees self.new) }
    {
        let node = self.layer_of(f)?;
        self.intern(node)
    }

    // The top layer of a formula, over the numbers of its parts.
    #[cycle(of_tree)]
    #[tactic(auto, using(crate::proofs::FormulaLayers::layers))]
    fn layer_of(&mut self, f: &Formula) -> Result<Node, NoMemory>
        ensures kept { Keeps (trees self.old) (trees self.new) }
        ensures fits { IfOk result (λ n. IsTrue (fits (length (trees self.new)) n)) }
        ensures tree { IfOk result (λ n. tree_of_node (trees self.new) n ≡ tree_of_formula f.now) }
    {
        match f {
            Formula::True => Ok(Node::True),
            Formula::False => Ok(Node::False),
            Formula::Atom(_, _) => {
                let same = f.copy(self.alloc)?;
                Ok(Node::Basic(same))
            }
            Formula::Defined(_, _) => {
                let same = f.copy(self.alloc)?;
                Ok(Node::Basic(same))
            }
            Formula::Compare(_, _, _) => {
                let same = f.copy(self.alloc)?;
                Ok(Node::Basic(same))
            }
            Formula::GoalFact(_, _) => {
                let same = f.copy(self.alloc)?;
                Ok(Node::Basic(same))
            }
            Formula::GoalPlace(_, _, _) => {
                let same = f.copy(self.alloc)?;
                Ok(Node::Basic(same))
            }
            Formula::GoalNot(_, _) => {
                let same = f.copy(self.alloc)?;
                Ok(Node::Basic(same))
            }
            Formula::Not(g) => {
                let id = self.of_tree(g)?;
                Ok(Node::Not(id))
            }
            Formula::And(fs) => {
                let ids = self.of_trees(fs)?;
                Ok(Node::And(ids))
            }
            Formula::Or(fs) => {
                let ids = self.of_trees(fs)?;
                Ok(Node::Or(ids))
            }
            Formula::ForAll(vs, b, g) => {
                let id = self.of_tree(g)?;
                let vars = vs.copy(self.alloc)?;
                let bound = b.copy(self.alloc)?;
                Ok(Node::ForAll(vars, bound, id))
            }
            Formula::Exists(vs, b, g) => {
                let id = self.of_tree(g)?;
                let vars = vs.copy(self.alloc)?;
                let bound = b.copy(self.alloc)?;
                Ok(Node::Exists(vars, bound, id))
            }
            Formula::Next(g) => {
                let id = self.of_tree(g)?;
                Ok(Node::Next(id))
            }
            Formula::Always(g) => {
                let id = self.of_tree(g)?;
                Ok(Node::Always(id))
            }
            Formula::Eventually(g) => {
                let id = self.of_tree(g)?;
                Ok(Node::Eventually(id))
            }
            Formula::Until(g, h) => {
                let first = self.of_tree(g)?;
                let second = self.of_tree(h)?;
                Ok(Node::Until(first, second))
            }
            Formula::Within(steps, g) => {
                let id = self.of_tree(g)?;
                Ok(Node::Within(*steps, id))
            }
            Formula::During(steps, g) => {
                let id = self.of_tree(g)?;
                Ok(Node::During(*steps, id))
            }
        }
    }

    #[cycle(of_tree)]
    fn of_trees(&mut self, fs: &Formulas) -> Result<Ids, NoMemory>
        ensures kept { Keeps (trees self.old) (trees self.new) }
        ensures below { IfOk result (λ ids. IsTrue (all_below (length (trees self.new)) ids)) }
        ensures numbers { IfOk result (DenoteFormulas self.new fs.now) }
    {
        let mut ids = Ids::new(self.alloc);
        for f in fs.as_slice().iter() {
            let id = self.of_tree(f)?;
            ids.push(id)?;
        }
        Ok(ids)
    }
}
