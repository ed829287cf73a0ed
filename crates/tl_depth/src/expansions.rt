// What the search remembers of the search nodes' actions, and of what came of these.
ghost use Rattle.std.specs.Prelude.{◌≡◌, ◌<◌, ◌⊎◌, length, Some, None, IfOk, IfSome, OnOk};
ghost use Rattle.tl_depth.specs.Expansions.{StayExpansions, as_seen, AddsAt, KnowsNothing, KnowsActions, KnowsArrival, GainsActions, GainsArrival};

use crate::packed::PackedActions;
use std::alloc::Global;
use tl_search::Arrival;
use tl_syntax::NoMemory;

/// What is remembered of a search node.
#[derive(Drop)]
pub struct Expansion {
    /// Whether some action of it was tried before it was entered last.
    pub again: bool,
    /// Its executable actions, where it was entered again and no level of the stack has them.
    pub actions: Option<PackedActions>,
    /// What came of the first of its actions.
    pub arrivals: Vec<Arrival>,
}

/// What comes of an action when it is tried again: the search node that was kept then is seen.
fn seen_again(arrival: Arrival) -> Arrival
    ensures { result ≡ as_seen arrival }
{
    match arrival {
        Arrival::Fresh(k) => Arrival::Seen(k),
        known => known,
    }
}

impl Expansion {
    /// The search node is entered. Its actions are given out, where they are known, so that they
    /// are known no longer.
    fn enter(&mut self) -> Option<PackedActions>
        ensures result { result ≡ self.old.actions }
        ensures actions { self.new.actions ≡ None }
        ensures arrivals { self.new.arrivals.items ≡ self.old.arrivals.items }
    {
        self.again = self.arrivals.as_slice().len() > 0;
        self.actions.take()
    }

    /// The search node is left. Its actions are known from now on, where it was entered again; a
    /// search node that is entered once takes no memory for them.
    fn leave(&mut self, actions: PackedActions)
        ensures actions { (self.new.actions ≡ self.old.actions) ⊎ (self.new.actions ≡ Some actions) }
        ensures arrivals { self.new.arrivals.items ≡ self.old.arrivals.items }
    {
        if self.again {
            self.actions = Some(actions);
        }
    }

    /// What came of the action of this place is known from now on, where that of each action before
    /// it is known, and its own is not.
    fn add(&mut self, tried: usize, arrival: Arrival) -> Result<(), NoMemory>
        ensures actions { self.new.actions ≡ self.old.actions }
        ensures arrivals { AddsAt self.old.arrivals.items self.new.arrivals.items tried arrival }
    {
        if self.arrivals.as_slice().len() == tried && self.arrivals.push(arrival).is_err() {
            return Err(NoMemory);
        }
        Ok(())
    }
}

/// What is remembered of the kept search nodes, by their numbers.
#[derive(Drop)]
pub struct Expansions {
    /// That of each search node up to some number.
    pub entries: Vec<Expansion>,
}

impl Expansions {
    /// Nothing is remembered.
    pub fn new(alloc: Global) -> Expansions
        ensures { KnowsNothing result }
    {
        Expansions {
            entries: Vec::new(alloc),
        }
    }

    /// Makes room for the search node of the number, of which nothing need be known.
    fn reach(&mut self, alloc: Global, at: usize) -> Result<(), NoMemory>
        ensures stay { StayExpansions self.old self.new }
        ensures room { OnOk result (at < length self.new.entries.items) }
    {
        'entries: while self.entries.as_slice().len() <= at {
            let entry = Expansion {
                again: false,
                actions: None,
                arrivals: Vec::new(alloc),
            };
            if self.entries.push(entry).is_err() {
                return Err(NoMemory);
            }
        }
        Ok(())
    }

    /// The search node of the number is entered. Its actions are given out, where they are known,
    /// so that they are known no longer.
    pub fn take_actions(
        &mut self,
        alloc: Global,
        at: usize,
    ) -> Result<Option<PackedActions>, NoMemory>
        ensures stay { OnOk result (StayExpansions self.old self.new) }
        ensures actions { IfOk result (λ found. IfSome found (KnowsActions self.old at)) }
    {
        self.reach(alloc, at)?;
        Ok(self.entries[at].enter())
    }

    /// The search node of the number is left. Its actions are known from now on, where it was
    /// entered again.
    pub fn give_back(&mut self, at: usize, actions: PackedActions)
        ensures { GainsActions self.old self.new at actions }
    {
        if at < self.entries.as_slice().len() {
            self.entries[at].leave(actions);
        }
    }

    /// What came of the action of the search node of the number, where it is known.
    pub fn arrival(&self, at: usize, tried: usize) -> Option<Arrival>
        ensures { IfSome result (KnowsArrival self.now at tried) }
    {
        let entries = self.entries.as_slice();
        if entries.len() <= at {
            return None;
        }
        let arrivals = entries[at].arrivals.as_slice();
        if arrivals.len() <= tried {
            return None;
        }
        Some(arrivals[tried])
    }

    /// What came of the action of the search node of the number is known from now on, where that of
    /// each action before it is known.
    pub fn remember_arrival(
        &mut self,
        at: usize,
        tried: usize,
        arrival: Arrival,
    ) -> Result<(), NoMemory>
        ensures { OnOk result (GainsArrival self.old self.new at tried arrival) }
    {
        if at < self.entries.as_slice().len() {
            return self.entries[at].add(tried, seen_again(arrival));
        }
        Ok(())
    }
}
