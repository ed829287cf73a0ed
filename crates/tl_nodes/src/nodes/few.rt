// Numbers in the order in which they came first, each once.
ghost use Rattle.std.specs.Prelude.{◌≡◌, [], IsTrue, IfOk, nat_eq, slice_index_or, slice_set, true};
ghost use Rattle.indexmap.specs.IndexSet.{insert_key};

use std::alloc::{AllocError, Global};
use std::marker::Model;

/// How many parts may be compared with each other, each with those before it.
pub(crate) const FEW: usize = 32;

/// How many places there are for what was seen.
const PLACES: usize = 4096;

/// Past so many numbers a place that was seen is not looked into: a table of them is faster.
const MOST: usize = 512;

/// Numbers in the order in which they came first, each once. The room for them is used again and
/// again.
#[derive(Drop)]
pub(crate) struct Few {
    ids: Vec<usize>,
    seen: Vec<bool>,
}

impl Model for Few {
    ghost use Rattle.std.specs.Prelude.{ℕ, List, IsTrue};
    ghost use Rattle.tl_nodes.specs.Seen.{all_seen};

    ghost Value = { List ℕ };

    ghost view = { λ few. few.ids.items };

    ghost invariant = { λ few. IsTrue (all_seen few.seen.items few.ids.items) };
}

impl Few {
    /// No number, and no room. It takes no memory.
    pub fn new(alloc: Global) -> Few
        ensures { result ≡ [] }
    {
        Few {
            ids: Vec::new(alloc),
            seen: Vec::new(alloc),
        }
    }

    /// No number, and room to tell numbers apart.
    pub fn with_places(alloc: Global) -> Result<Few, AllocError>
        ensures { IfOk result (λ few. few ≡ []) }
    {
        let seen = vec![in alloc; false; PLACES]?;
        Ok(Few {
            ids: Vec::new(alloc),
            seen,
        })
    }

    /// Lets all numbers go. It takes no memory.
    pub fn clear(&mut self)
        ensures { self.new ≡ [] }
    {
        for id in self.ids.as_slice().iter() {
            put_seen(&mut self.seen, *id % PLACES, false);
        }
        self.ids.clear();
    }

    /// The numbers in their order.
    pub fn as_slice(&self) -> &[usize]
        ensures { result.now ≡ self.now }
    {
        self.ids.as_slice()
    }

    /// Adds a number at the end, unless it is there. False: there is no memory for it, or a table
    /// tells faster whether it is there.
    pub fn insert(&mut self, id: usize) -> bool
        ensures { IsTrue result → self.new ≡ insert_key nat_eq self.old id }
    {
        let place = id % PLACES;
        if is_seen(self.seen.as_slice(), place) {
            if self.ids.len() > MOST {
                return false;
            }
            if self.as_slice().contains(&id) {
                return true;
            }
        }
        match self.ids.push(id) {
            Ok(()) => {}
            Err(_) => return false,
        }
        put_seen(&mut self.seen, place, true);
        true
    }
}

// What stands at a place; one that is not there counts as seen.
fn is_seen(seen: &[bool], place: usize) -> bool
    ensures { result ≡ slice_index_or seen.now place true }
{
    match seen.get(place) {
        Some(was) => *was,
        None => true,
    }
}

// Writes whether the place was seen, where it is there.
fn put_seen(seen: &mut Vec<bool>, place: usize, is: bool)
    ensures { seen.new.items ≡ slice_set seen.old.items place is }
{
    if place < seen.len() {
        seen[place] = is;
    }
}
