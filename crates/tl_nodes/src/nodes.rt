// The table of nodes.
ghost use Rattle.std.specs.Prelude.{◌≡◌, ◌↔◌, ◌<◌, [], ◌∷◌, map, false, length, IfOk, IsTrue};
ghost use Rattle.tl_syntax.specs.StateFormulas.{IsState};
ghost use Rattle.tl_syntax.specs.Trees.{verum, falsum};
ghost use Rattle.tl_nodes.specs.Filled.{AreFilled};
ghost use Rattle.tl_nodes.specs.FilledOnce.{filled-prop};
ghost use Rattle.tl_nodes.specs.Fits.{fits, EachFits, begins_with_constants};
ghost use Rattle.tl_nodes.specs.NodeTrees.{tree_at, tree_of_node, trees_of_nodes};
ghost use Rattle.tl_nodes.specs.Numbering.{OneToOne};
ghost use Rattle.tl_nodes.specs.Temporal.{has_temporal};

mod few;
mod filled;
mod filling;
mod flags;
mod flatten;
mod intern;
mod join;
mod left;
mod marks;
mod negation;
mod of_tree;

use crate::Node;
use few::Few;
use filled::{Filled, PLACES};
use indexmap::IndexSet;
pub use marks::fact_mark;
use marks::mark_at;
use std::alloc::Global;
use tl_syntax::NoMemory;

/// Formulas that share their parts. Each number below `len` denotes one tree, and equal trees have
/// one number; the parts of a node have smaller numbers than the node. Numbers keep their trees
/// after every call, a refused one included.
#[derive(Drop)]
pub struct Nodes {
    pub(crate) alloc: Global,
    pub(crate) table: IndexSet<Node>,
    pub(crate) temporal: Vec<bool>,
    pub(crate) marks: Vec<u64>,
    pub(crate) joins: Vec<usize>,
    pub(crate) few: Few,
    pub(crate) filled: Vec<Filled>,
    ghost below: { EachFits table.keys },
    ghost one_to_one: { OneToOne (trees_of_nodes table.keys) },
    ghost constants: { IsTrue (begins_with_constants table.keys) },
    ghost flags: { temporal.items ≡ map has_temporal (trees_of_nodes table.keys) },
    ghost places: { length filled.items ≡ 1024 },
    ghost filled_is: { AreFilled (trees_of_nodes table.keys) filled.items } by { filled-prop (trees_of_nodes table.keys) filled.items },
}

impl Nodes {
    ghost use Rattle.tl_nodes.specs.Numbers.{trees, Denotes};

    /// The two constants: true is number 0, and false is number 1.
    pub fn new(alloc: Global) -> Result<Nodes, NoMemory>
        ensures constants { IfOk result (λ s. trees s ≡ verum ∷ falsum ∷ []) }
    {
        let mut table = IndexSet::new(alloc);
        table.insert(Node::True)?;
        table.insert(Node::False)?;
        let mut temporal = Vec::new(alloc);
        temporal.push(false)?;
        temporal.push(false)?;
        let marks = vec![in alloc; 0; 2]?;
        let joins = vec![in alloc; 0; PLACES]?;
        let few = Few::with_places(alloc)?;
        let filled = vec![in alloc; Filled::none(); PLACES]?;
        Ok(Nodes {
            alloc,
            table,
            temporal,
            marks,
            joins,
            few,
            filled,
        })
    }

    /// How many numbers are given: 0 up to it. It takes no memory.
    pub fn len(&self) -> usize
        ensures len { result ≡ length (trees self.now) }
        ensures one_to_one { OneToOne (trees self.now) }
        ensures truth { Denotes self.now 0 verum }
        ensures falsehood { Denotes self.now 1 falsum }
    {
        self.table.len()
    }

    /// The top layer of the number's tree. It takes no memory.
    pub fn get(&self, id: usize) -> &Node
        requires { id < length (trees self.now) }
        ensures tree { Denotes self.now id (tree_of_node (trees self.now) result.now) }
        ensures parts { IsTrue (fits id result.now) }
    {
        self.table.get_index(id).unwrap()
    }

    /// Whether the number's tree has a temporal word. It takes no memory: the answer is stored with
    /// the node.
    pub fn temporal(&self, id: usize) -> bool
        requires { id < length (trees self.now) }
        ensures word { result ≡ has_temporal (tree_at (trees self.now) id) }
        ensures state { (result ≡ false) ↔ IsState (tree_at (trees self.now) id) }
    {
        self.temporal[id]
    }

    /// A fingerprint of the number's tree, where it is a fact or the negation of one: that of
    /// `fact_mark`. Of each other tree it is 0. It takes no memory.
    pub fn mark(&self, id: usize) -> u64 {
        mark_at(self.marks.as_slice(), id)
    }
}
