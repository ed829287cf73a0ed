// Where the parts of a conjunction stand, by their fingerprints.
ghost use Rattle.std.specs.Prelude.{IfSome};
ghost use Rattle.tl_syntax.specs.Lists.{Among};

use std::alloc::Global;
use tl_nodes::Nodes;
use tl_syntax::{Ids, NoMemory};

/// How many places are looked at for a fingerprint, one after another.
const TRIES: usize = 8;

/// From how many parts on it is noted where they stand.
const MANY: usize = 16;

/// A conjunction among the nodes.
#[derive(Clone, Copy)]
pub(crate) struct Conjunction<'a> {
    /// The nodes.
    pub(crate) nodes: &'a Nodes,
    /// Its number.
    pub(crate) at: usize,
    /// The numbers of its parts.
    pub(crate) parts: &'a Ids,
}

/// Where the parts of one conjunction stand by their fingerprints: of that which was asked for
/// last, since a search asks for one and the same with the changes of many actions. No clause
/// speaks of the fingerprints: they only say where to look.
#[derive(Drop)]
pub struct PartPlaces {
    alloc: Global,
    noted: Option<usize>,
    places: Vec<u32>,
}

/// The first place at which a fingerprint is looked for.
fn home_of(mark: u64, places: usize) -> usize {
    ((mark >> 32).wrapping_mul(places as u64) >> 32) as usize
}

/// The part at `k`, counted from 1, where there is one.
fn part_at(parts: &Ids, k: u32) -> Option<usize>
    ensures { IfSome result (λ q. Among q parts.now) }
{
    let before = (k as usize).checked_sub(1)?;
    let part = parts.as_slice().get(before)?;
    Some(*part)
}

impl PartPlaces {
    /// Those of no conjunction. It takes no memory.
    pub fn new(alloc: Global) -> PartPlaces {
        PartPlaces {
            alloc,
            noted: None,
            places: Vec::new(alloc),
        }
    }

    /// Notes that the part at `k`, counted from 1, has the fingerprint, where a place is free
    /// nearby.
    fn put(&mut self, mark: u64, k: u32) {
        let home = home_of(mark, self.places.len());
        for place in home..home.saturating_add(TRIES) {
            match self.places.get_mut(place) {
                Some(there) => {
                    if *there == 0 {
                        *there = k;
                        return;
                    }
                }
                None => return,
            }
        }
    }

    /// Notes where the parts of the conjunction stand. It fails for want of memory alone.
    fn note(&mut self, conjunction: &Conjunction<'_>) -> Result<(), NoMemory> {
        self.noted = None;
        let many = conjunction.parts.len().saturating_mul(2);
        self.places = vec![in self.alloc; 0; many.saturating_add(TRIES)]?;
        let mut k: u32 = 0;
        for part in conjunction.parts.as_slice().iter() {
            k = k.saturating_add(1);
            let mark = conjunction.nodes.mark(*part);
            if mark != 0 {
                self.put(mark, k);
            }
        }
        self.noted = Some(conjunction.at);
        Ok(())
    }

    /// Whether it is noted where the parts of the conjunction stand: where they are many, and there
    /// is memory for it.
    pub(crate) fn know(&mut self, conjunction: &Conjunction<'_>) -> bool {
        if conjunction.parts.len() < MANY {
            return false;
        }
        self.noted == Some(conjunction.at) || self.note(conjunction).is_ok()
    }

    /// A part of the conjunction with this fingerprint, where one is found.
    pub(crate) fn part(&self, conjunction: &Conjunction<'_>, mark: u64) -> Option<usize>
        ensures { IfSome result (λ q. Among q conjunction.now.parts.now) }
    {
        let home = home_of(mark, self.places.len());
        for place in home..home.saturating_add(TRIES) {
            let k = self.places.get(place)?;
            let part = part_at(conjunction.parts, *k)?;
            if conjunction.nodes.mark(part) == mark {
                return Some(part);
            }
        }
        None
    }
}
