// The parts of joins, opened at any depth.
ghost use Rattle.std.specs.Prelude.{◌≡◌, ◌<◌, ◌++◌, length, reverse, IfOk, IfSome, OnOk, IsTrue};
ghost use Rattle.tl_nodes.specs.Fits.{all_below};
ghost use Rattle.tl_nodes.specs.Numbers.{trees};
ghost use Rattle.tl_nodes.specs.Opened.{AreNested, AreOpened, AreSmaller};

use super::Nodes;
use crate::Node;
use indexmap::IndexSet;
use std::alloc::{AllocError, Global};
use tl_syntax::{Ids, Junction, NoMemory};

impl Nodes {
    // The parts of a number that is itself a join of the same kind.
    pub(crate) fn nested(&self, id: usize, junction: Junction) -> Option<&Ids>
        requires { id < length (trees self.now) }
        ensures parts { AreNested self.now junction id result }
        ensures below { IfSome result (λ ids. IsTrue (all_below id ids.now)) }
        ensures smaller { IfSome result (λ ids. AreSmaller self.now id ids.now) }
    {
        match self.get(id) {
            Node::And(ids) => match junction {
                Junction::All => Some(ids),
                Junction::Any => None,
            },
            Node::Or(ids) => match junction {
                Junction::All => None,
                Junction::Any => Some(ids),
            },
            _ => None,
        }
    }

    // The numbers that the parts open to, from the first part on: each join of the same kind is
    // replaced by its parts, at any depth, and opened once, since what it opens to is there when it
    // comes again. Of equal parts the first stays.
    pub(crate) fn flatten(
        &self,
        parts: &[usize],
        junction: Junction,
    ) -> Result<Vec<usize>, NoMemory>
        requires { IsTrue (all_below (length (trees self.now)) parts.now) }
        ensures below { IfOk result (λ v. IsTrue (all_below (length (trees self.now)) v.items)) }
        ensures flat { IfOk result (λ v. AreOpened self.now junction parts.now v.items) }
    {
        let mut todo = Vec::new(self.alloc);
        push_turned(self.alloc, &mut todo, parts)?;
        let mut opened = IndexSet::new(self.alloc);
        let mut flat = Vec::new(self.alloc);
        while let Some(id) = todo.pop() {
            match self.nested(id, junction) {
                Some(ids) => {
                    if opened.insert(id)? {
                        push_turned(self.alloc, &mut todo, ids.as_slice())?;
                    }
                }
                None => {
                    flat.push(id)?;
                }
            }
        }
        Ok(flat)
    }
}

// Puts the numbers on a stack, the first one on the top.
fn push_turned(alloc: Global, stack: &mut Vec<usize>, ids: &[usize]) -> Result<(), AllocError>
    ensures { OnOk result (stack.new.items ≡ stack.old.items ++ reverse ids.now) }
{
    let turned: Vec<usize> = ids.iter().rev().copied().collect(alloc)?;
    stack.extend_from_slice(turned.as_slice())
}
