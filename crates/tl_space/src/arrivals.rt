// What came of arrivals.
ghost use Rattle.std.specs.Prelude.{◌≡◌, [], length, IfSome};
ghost use Rattle.tl_space.specs.Entries.{entries_from, HasOneMore};
ghost use Rattle.tl_syntax.specs.Lists.{Among};

use crate::numbers::Numbers;
use indexmap::IndexMap;
use std::alloc::Global;
use std::marker::Model;
use tl_search::Arrival;

/// What came of the first arrival in a world.
#[derive(Clone, Copy)]
pub(crate) struct FirstArrival {
    /// The number of the formula that came in.
    pub(crate) label: usize,
    /// What came of it.
    pub(crate) arrival: Arrival,
}

/// What came of arrivals, which contracts see as a list, by the numbers of the world and of the
/// formula that came in. What came of the first in each world stands in a list by the number of the
/// world, since most are met with one formula alone, and what came of others in a map.
#[derive(Drop)]
pub(crate) struct Arrivals {
    first: Vec<FirstArrival>,
    others: IndexMap<Numbers, Arrival>,
}

impl Model for Arrivals {
    ghost use Rattle.std.specs.Prelude.{List, ◌++◌};
    ghost use Rattle.tl_search.specs.declared.arrival.Arrival.{Arrival as PlainArrival};
    ghost use Rattle.tl_space.specs.Entries.{entries_from};
    ghost use Rattle.tl_space.specs.declared.numbers.Numbers.{Numbers as PlainNumbers};

    ghost Value = { List (PlainNumbers × PlainArrival) };

    ghost view = { λ a. entries_from 0 a.first.items ++ a.others.entries };
}

/// Adds the first arrival in the world whose number comes next, where there is memory for it.
fn add_first(first: &mut Vec<FirstArrival>, key: Numbers, arrival: Arrival)
    requires { key.world ≡ length first.old.items }
    ensures { HasOneMore (entries_from 0 first.old.items) (key, arrival) (entries_from 0 first.new.items) }
{
    let new = FirstArrival {
        label: key.label,
        arrival,
    };
    match first.push(new) {
        Ok(()) => {}
        Err(_) => {}
    }
}

/// Adds another arrival, where there is memory for it.
fn add_other(others: &mut IndexMap<Numbers, Arrival>, key: Numbers, arrival: Arrival)
    ensures { HasOneMore others.old.entries (key, arrival) others.new.entries }
{
    match others.insert(key, arrival) {
        Ok(_) => {}
        Err(_) => {}
    }
}

impl Arrivals {
    /// What came of no arrival. It takes no memory.
    pub(crate) fn new(alloc: Global) -> Arrivals
        ensures { result ≡ [] }
    {
        Arrivals {
            first: Vec::new(alloc),
            others: IndexMap::new(alloc),
        }
    }

    /// What came of the arrival, if it was the first in its world.
    fn get_first(&self, key: Numbers) -> Option<Arrival>
        ensures { IfSome result (λ r. Among (key, r) self.now) }
    {
        let first = self.first.get(key.world)?;
        if first.label == key.label {
            Some(first.arrival)
        } else {
            None
        }
    }

    /// What came of the arrival, if it was not the first in its world.
    fn get_other(&self, key: Numbers) -> Option<Arrival>
        ensures { IfSome result (λ r. Among (key, r) self.now) }
    {
        match self.others.get(&key) {
            Some(arrival) => Some(*arrival),
            None => None,
        }
    }

    /// What came of the arrival, where it is remembered. It takes no memory.
    pub(crate) fn get(&self, key: Numbers) -> Option<Arrival>
        ensures { IfSome result (λ r. Among (key, r) self.now) }
    {
        match self.get_first(key) {
            Some(arrival) => Some(arrival),
            None => self.get_other(key),
        }
    }

    /// Remembers what came of the arrival, where there is memory for it.
    pub(crate) fn remember(&mut self, key: Numbers, arrival: Arrival)
        ensures { HasOneMore self.old (key, arrival) self.new }
    {
        if key.world == self.first.len() {
            add_first(&mut self.first, key, arrival);
        } else {
            add_other(&mut self.others, key, arrival);
        }
    }
}
