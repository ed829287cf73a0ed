// Conjunction and disjunction that simplify.
ghost use Rattle.std.specs.Prelude.{◌≡◌, [], length, IfOk, IfSome, IsTrue, OnErr};
ghost use Rattle.tl_nodes.specs.Fits.{all_below};
ghost use Rattle.tl_nodes.specs.Given.{conjunction_of, disjunction_of, join_of, join_over, GivesNumber};
ghost use Rattle.tl_nodes.specs.Joins.{dropped, decides, join_node};
ghost use Rattle.tl_nodes.specs.Left.{JoinsLeft, StaysIfJoined};
ghost use Rattle.tl_nodes.specs.Numbering.{Keeps};
ghost use Rattle.tl_nodes.specs.Numbers.{trees, Denotes, StaysIfKnown};

use super::Nodes;
use super::few::Few;
use super::filled::{PLACES, mixed};
use crate::Node;
use std::alloc::Global;
use std::mem;
use tl_syntax::{Ids, Junction, NoMemory};

impl Nodes {
    /// The number of the parts' conjunction: inner conjunctions are opened, a part false gives
    /// false, each true is dropped, of equal parts the first stays, no part gives true, and one
    /// part stands alone.
    pub fn and(&mut self, parts: &[usize]) -> Result<usize, NoMemory>
        requires { IsTrue (all_below (length (trees self.old)) parts.now) }
        ensures number { GivesNumber self.new (conjunction_of self.old parts.now) result }
        ensures known { StaysIfKnown self.old self.new (conjunction_of self.old parts.now) }
        ensures kept { Keeps (trees self.old) (trees self.new) }
        ensures refused { OnErr result (trees self.new ≡ trees self.old) }
    {
        self.join(parts, Junction::All)
    }

    /// The number of the parts' disjunction: as `and` with the constants exchanged.
    pub fn or(&mut self, parts: &[usize]) -> Result<usize, NoMemory>
        requires { IsTrue (all_below (length (trees self.old)) parts.now) }
        ensures number { GivesNumber self.new (disjunction_of self.old parts.now) result }
        ensures known { StaysIfKnown self.old self.new (disjunction_of self.old parts.now) }
        ensures kept { Keeps (trees self.old) (trees self.new) }
        ensures refused { OnErr result (trees self.new ≡ trees self.old) }
    {
        self.join(parts, Junction::Any)
    }

    fn join(&mut self, parts: &[usize], junction: Junction) -> Result<usize, NoMemory>
        requires { IsTrue (all_below (length (trees self.old)) parts.now) }
        ensures number { GivesNumber self.new (join_of self.old junction parts.now) result }
        ensures known { StaysIfKnown self.old self.new (join_of self.old junction parts.now) }
        ensures kept { Keeps (trees self.old) (trees self.new) }
        ensures refused { OnErr result (trees self.new ≡ trees self.old) }
    {
        match self.row_left(parts, junction) {
            Some(row) => self.join_left(row, junction),
            None => self.join_opened(parts, junction),
        }
    }

    // The same, where what is left of the parts is put elsewhere.
    fn join_opened(&mut self, parts: &[usize], junction: Junction) -> Result<usize, NoMemory>
        requires { IsTrue (all_below (length (trees self.old)) parts.now) }
        ensures number { GivesNumber self.new (join_of self.old junction parts.now) result }
        ensures known { StaysIfKnown self.old self.new (join_of self.old junction parts.now) }
        ensures kept { Keeps (trees self.old) (trees self.new) }
        ensures refused { OnErr result (trees self.new ≡ trees self.old) }
    {
        let mut few = mem::replace(&mut self.few, Few::new(self.alloc));
        few.clear();
        let answer = self.join_in(&mut few, parts, junction);
        self.few = few;
        answer
    }

    // The same, where the numbers that are left are put to no others.
    fn join_in(
        &mut self,
        few: &mut Few,
        parts: &[usize],
        junction: Junction,
    ) -> Result<usize, NoMemory>
        requires below { IsTrue (all_below (length (trees self.old)) parts.now) }
        requires none { few.old ≡ [] }
        ensures number { GivesNumber self.new (join_of self.old junction parts.now) result }
        ensures known { StaysIfKnown self.old self.new (join_of self.old junction parts.now) }
        ensures kept { Keeps (trees self.old) (trees self.new) }
        ensures refused { OnErr result (trees self.new ≡ trees self.old) }
    {
        if self.put_few_left(few, parts, junction) {
            return self.join_left(few.as_slice(), junction);
        }
        let left = self.many_left(parts, junction)?;
        self.join_left(left.as_slice(), junction)
    }

    // The number of the join of the parts of which these numbers are left.
    fn join_left(&mut self, left: &[usize], junction: Junction) -> Result<usize, NoMemory>
        requires { IsTrue (all_below (length (trees self.old)) left.now) }
        ensures number { JoinsLeft self.old self.new junction left.now result }
        ensures known { StaysIfJoined self.old self.new junction left.now }
        ensures kept { Keeps (trees self.old) (trees self.new) }
        ensures refused { OnErr result (trees self.new ≡ trees self.old) }
    {
        let zero = zero_of(junction);
        if left.contains(&zero) {
            return Ok(zero);
        }
        if left.len() == 0 {
            return Ok(unit_of(junction));
        }
        if left.len() == 1 {
            return Ok(left[0]);
        }
        let home = home_of_join(left, junction);
        match self.find_join(home, left, junction) {
            Some(number) => Ok(number),
            None => self.join_anew(home, left, junction),
        }
    }

    // The number of the join of these numbers, where it is remembered. It takes no memory.
    fn find_join(&self, home: usize, left: &[usize], junction: Junction) -> Option<usize>
        ensures { IfSome result (λ i. Denotes self.now i (join_over self.now junction left.now)) }
    {
        let at = match self.joins.get(home) {
            Some(at) => *at,
            None => return None,
        };
        if at < self.len() && is_join_of(self.get(at), left, junction) {
            Some(at)
        } else {
            None
        }
    }

    // The number of the join of these numbers, which is remembered then. Another one may be
    // forgotten for it.
    fn join_anew(
        &mut self,
        home: usize,
        left: &[usize],
        junction: Junction,
    ) -> Result<usize, NoMemory>
        requires { IsTrue (all_below (length (trees self.old)) left.now) }
        ensures number { GivesNumber self.new (join_over self.old junction left.now) result }
        ensures known { StaysIfKnown self.old self.new (join_over self.old junction left.now) }
        ensures kept { Keeps (trees self.old) (trees self.new) }
        ensures refused { OnErr result (trees self.new ≡ trees self.old) }
    {
        let ids = ids_of(self.alloc, left)?;
        let node = join_of(junction, ids);
        let number = self.intern(node)?;
        if let Some(place) = self.joins.get_mut(home) {
            *place = number;
        }
        Ok(number)
    }
}

// Whether the node is the join of these numbers.
fn is_join_of(node: &Node, left: &[usize], junction: Junction) -> bool
    ensures { IsTrue result → node.now ≡ join_node junction left.now }
{
    match junction {
        Junction::All => match node {
            Node::And(ids) => ids.as_slice() == left,
            _ => false,
        },
        Junction::Any => match node {
            Node::Or(ids) => ids.as_slice() == left,
            _ => false,
        },
    }
}

// The place for the join of these numbers. What is remembered does not depend on it.
fn home_of_join(left: &[usize], junction: Junction) -> usize {
    let mut hash = mixed(0, unit_of(junction) as u64);
    for id in left.iter() {
        hash = mixed(hash, *id as u64);
    }
    (hash >> 32) as usize & (PLACES - 1)
}

fn join_of(junction: Junction, ids: Ids) -> Node
    ensures { result ≡ join_node junction ids }
{
    match junction {
        Junction::All => Node::And(ids),
        Junction::Any => Node::Or(ids),
    }
}

// The constant that is dropped.
pub(crate) fn unit_of(junction: Junction) -> usize
    ensures { result ≡ dropped junction }
{
    match junction {
        Junction::All => 0,
        Junction::Any => 1,
    }
}

// The constant that decides.
fn zero_of(junction: Junction) -> usize
    ensures { result ≡ decides junction }
{
    match junction {
        Junction::All => 1,
        Junction::Any => 0,
    }
}

fn ids_of(alloc: Global, from: &[usize]) -> Result<Ids, NoMemory>
    ensures { IfOk result (λ ids. ids ≡ from.now) }
{
    let mut ids = Ids::new(alloc);
    ids.extend(from)?;
    Ok(ids)
}
