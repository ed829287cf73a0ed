// The cheapest ways that were found so far, and which search nodes are still to be settled.
ghost use Rattle.std.specs.Prelude.{◌≡◌, ◌+◌, ◌<◌, ◌++◌, ◌∷◌, [], true, false, length, None, IfOk, OnOk};
ghost use Rattle.std.specs.List.{slice_set};
ghost use Rattle.tl_cost.specs.declared.open_list.Entry.{Entry};
ghost use Rattle.tl_cost.specs.Ways.{entry_of, is_listed, listed_len, Adds, AreLinked, Follows, ForWay, Moves, TellsOrder};

use crate::open_list::{Entry, OpenList};
use std::alloc::Global;
use tl_syntax::{Action, Actions, NoMemory};

/// The last step of a way.
#[derive(Drop)]
pub(crate) struct LastStep {
    /// The number of the search node before it.
    pub(crate) from: usize,
    /// The action.
    pub(crate) action: Action,
}

/// The cheapest way to a search node that was found so far.
#[derive(Drop)]
pub(crate) struct Way {
    /// The sum of the costs of its actions.
    pub(crate) cost: u64,
    /// How many actions it has.
    pub(crate) length: usize,
    /// Its last step; none at the root.
    pub(crate) last: Option<LastStep>,
}

/// The cheapest ways that were found so far, and the search nodes that are still to be settled.
#[derive(Drop)]
pub(crate) struct Found {
    /// A way to each kept search node, by their numbers.
    pub(crate) ways: Vec<Way>,
    /// The search nodes that are not settled, each with its way.
    pub(crate) open_list: OpenList,
}

impl Way {
    /// The empty way, to the root.
    pub(crate) fn at_root() -> Way
        ensures { result ≡ record { cost = 0; length = 0; last = None } }
    {
        Way {
            cost: 0,
            length: 0,
            last: None,
        }
    }

    /// The search node of this number, which has this way, as the open list has it.
    fn entry(&self, number: usize) -> Entry
        ensures { result ≡ entry_of self.now number }
    {
        Entry {
            cost: self.cost,
            length: self.length,
            number,
        }
    }

    /// Whether a way of this cost and length comes before: it costs less, or as much with fewer
    /// actions.
    pub(crate) fn falls(&self, cost: u64, length: usize) -> bool
        ensures { TellsOrder result cost length self.now }
    {
        cost < self.cost || (cost == self.cost && length < self.length)
    }
}

impl Found {
    /// No way yet.
    pub(crate) fn new(alloc: Global) -> Found
        ensures ways { result.ways.items ≡ [] }
        ensures none { (e : Entry) → is_listed result.open_list e ≡ false }
        ensures len { listed_len result.open_list ≡ 0 }
    {
        Found {
            ways: Vec::new(alloc),
            open_list: OpenList::new(alloc),
        }
    }

    /// Adds the way to the next search node, which is open.
    pub(crate) fn add(&mut self, way: Way) -> Result<(), NoMemory>
        requires { is_listed self.old.open_list (entry_of way (length self.old.ways.items))
            ≡ false }
        ensures ways { OnOk result (self.new.ways.items ≡ self.old.ways.items ++ way ∷ []) }
        ensures adds { OnOk result
            (Adds (is_listed self.old.open_list) (is_listed self.new.open_list)
            (entry_of way (length self.old.ways.items))) }
        ensures len { OnOk result
            (listed_len self.new.open_list ≡ listed_len self.old.open_list + 1) }
    {
        self.open_list.add(way.entry(self.ways.len()))?;
        self.ways.push(way)?;
        Ok(())
    }

    /// Replaces the way to an open search node.
    pub(crate) fn replace(&mut self, at: usize, way: Way) -> Result<(), NoMemory>
        requires at { at < length self.old.ways.items }
        requires was { ForWay self.old at
            (λ w. is_listed self.old.open_list (entry_of w at) ≡ true) }
        requires fresh { is_listed self.old.open_list (entry_of way at) ≡ false }
        ensures ways { OnOk result (self.new.ways.items ≡ slice_set self.old.ways.items at way) }
        ensures moves { OnOk result (ForWay self.old at (λ w.
            Moves (is_listed self.old.open_list) (is_listed self.new.open_list) (entry_of w at)
            (entry_of way at))) }
        ensures len { OnOk result
            (listed_len self.new.open_list ≡ listed_len self.old.open_list) }
    {
        let old = self.ways[at].entry(at);
        self.open_list.add(way.entry(at))?;
        self.open_list.remove(old);
        self.ways[at] = way;
        Ok(())
    }

    /// The path that the last steps of the ways give to a search node.
    pub(crate) fn path_to(&self, alloc: Global, at: usize) -> Result<Actions, NoMemory>
        requires at { at < length self.now.ways.items }
        requires linked { AreLinked self.now.ways.items }
        ensures { IfOk result (Follows self.now.ways.items at) }
    {
        let mut back = Vec::new(alloc);
        let mut here = at;
        while let Some(last) = &self.ways[here].last {
            let action = last.action.copy(alloc)?;
            back.push(action)?;
            here = last.from;
        }
        let mut path = Actions::new(alloc);
        while let Some(action) = back.pop() {
            path.push(action)?;
        }
        Ok(path)
    }
}
