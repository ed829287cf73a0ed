// Places with values, each place once.
ghost use Rattle.std.specs.Prelude.{◌≡◌, [], OnOk, IfOk};
ghost use Rattle.tl_problem.specs.Literals.{value_among, with_value};

use indexmap::IndexMap;
use std::alloc::{AllocError, Global};
use std::marker::Model;
use tl_syntax::{NoMemory, PlaceValue, PlaceValues, Value, Values};

/// A function, by its position in the domain's list, with its arguments.
#[derive(PartialEq, Eq, Hash, Drop)]
pub(crate) struct Place {
    pub(crate) fun: u32,
    pub(crate) args: Values,
}

/// Places with values, each place once, in the order of their first mention. Contracts see the list
/// of them.
/// A place is looked up by its hash.
#[derive(Drop)]
pub(crate) struct PlaceMap {
    values: IndexMap<Place, Value>,
}

impl Model for PlaceMap {
    ghost use Rattle.std.specs.Prelude.{List, map};
    ghost use Rattle.tl_syntax.specs.declared.place_value.PlaceValue.{PlaceValue};
    ghost use Rattle.tl_problem.specs.PlaceEntries.{place_value_of};

    ghost Value = { List PlaceValue };

    ghost view = { λ a. map place_value_of a.values.entries };
}

impl PlaceMap {
    /// No place. It takes no memory.
    pub(crate) fn new(alloc: Global) -> PlaceMap
        ensures { result ≡ [] }
    {
        PlaceMap {
            values: IndexMap::new(alloc),
        }
    }

    /// The value of a place, where it has one.
    pub(crate) fn value(&self, place: &Place) -> Option<Value>
        ensures { result ≡ value_among self.now (place.now.fun, place.now.args) }
    {
        self.values.get(place).copied()
    }

    /// Adds a place with a value at the end, where the place has none.
    pub(crate) fn insert(&mut self, place: Place, value: Value) -> Result<(), NoMemory>
        ensures { OnOk result (self.new ≡ with_value self.old
            (record { fun = place.fun; args = place.args; value = value })) }
    {
        if self.value(&place).is_none() {
            self.values.insert(place, value)?;
        }
        Ok(())
    }

    /// The list of the places with their values.
    pub(crate) fn into_values(self, alloc: Global) -> Result<PlaceValues, AllocError>
        ensures { IfOk result (λ values. values ≡ self) }
    {
        let mut values = PlaceValues::new(alloc);
        for (place, value) in self.values {
            let Place { fun, args } = place;
            values.push(PlaceValue { fun, args, value })?;
        }
        Ok(values)
    }
}
