// What the elements of `init` or of `goal` say together.
ghost use Rattle.std.specs.Prelude.{◌≡◌};
ghost use Rattle.tl_problem.specs.Literals.{no_literal, and_fact, and_value, and_not, fact_denied, fact_said, value_differs};
ghost use Rattle.tl_problem.specs.Readers.{AddsMeant, literals_in};

use crate::fact_set::FactSet;
use crate::place_map::{Place, PlaceMap};
use std::alloc::Global;
use tl_rules::{FormFault, Rule, breaks};
use tl_syntax::{Fact, PlaceValue};

/// What the elements of `init` or of `goal` say together, in tables where facts and places are
/// looked up.
#[derive(Drop)]
pub(crate) struct LiteralTables {
    /// The facts.
    pub(crate) facts: FactSet,
    /// The places with their values.
    pub(crate) values: PlaceMap,
    /// The negated facts.
    pub(crate) nots: FactSet,
}

impl LiteralTables {
    /// Nothing is said yet. It takes no memory.
    pub(crate) fn new(alloc: Global) -> LiteralTables
        ensures { literals_in result ≡ no_literal }
    {
        LiteralTables {
            facts: FactSet::new(alloc),
            values: PlaceMap::new(alloc),
            nots: FactSet::new(alloc),
        }
    }

    /// Adds the fact of an element at this offset, which no element may negate.
    pub(crate) fn add_fact(&mut self, fact: Fact, at: u32) -> Result<(), FormFault>
        ensures { AddsMeant result self.new (fact_denied (literals_in self.old) fact at)
            (and_fact (literals_in self.old) fact) }
    {
        if self.nots.contains(&fact) {
            return Err(breaks(Rule::TwoValues, at));
        }
        self.facts.insert(fact)?;
        Ok(())
    }

    /// Adds the negated fact of an element at this offset, which no element may say.
    pub(crate) fn add_not(&mut self, fact: Fact, at: u32) -> Result<(), FormFault>
        ensures { AddsMeant result self.new (fact_said (literals_in self.old) fact at)
            (and_not (literals_in self.old) fact) }
    {
        if self.facts.contains(&fact) {
            return Err(breaks(Rule::TwoValues, at));
        }
        self.nots.insert(fact)?;
        Ok(())
    }

    /// Adds the place with its value of an element at this offset, to which no element may give
    /// another value.
    pub(crate) fn add_value(&mut self, entry: PlaceValue, at: u32) -> Result<(), FormFault>
        ensures { AddsMeant result self.new (value_differs (literals_in self.old) entry at)
            (and_value (literals_in self.old) entry) }
    {
        let PlaceValue { fun, args, value } = entry;
        let place = Place { fun, args };
        if let Some(earlier) = self.values.value(&place) {
            if earlier != value {
                return Err(breaks(Rule::TwoValues, at));
            }
        }
        self.values.insert(place, value)?;
        Ok(())
    }
}
