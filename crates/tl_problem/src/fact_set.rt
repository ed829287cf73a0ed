// Facts, each once.
ghost use Rattle.std.specs.Prelude.{◌≡◌, [], OnOk, IfOk};
ghost use Rattle.std.specs.List.{list_any};
ghost use Rattle.tl_syntax.specs.DerivedTests.{fact_eq};
ghost use Rattle.tl_problem.specs.Literals.{with_fact};

use indexmap::IndexSet;
use std::alloc::{AllocError, AllocFailed, Global};
use std::marker::Model;
use tl_syntax::{Fact, Facts};

/// Facts, each once, in the order of their first mention. Contracts see the list of them. A fact is
/// looked up by its hash.
#[derive(Drop)]
pub(crate) struct FactSet {
    facts: IndexSet<Fact>,
}

impl Model for FactSet {
    ghost use Rattle.std.specs.Prelude.{List};
    ghost use Rattle.tl_syntax.specs.declared.fact.Fact.{Fact};

    ghost Value = { List Fact };

    ghost view = { λ a. a.facts.keys };
}

impl FactSet {
    /// No fact. It takes no memory.
    pub(crate) fn new(alloc: Global) -> FactSet
        ensures { result ≡ [] }
    {
        FactSet {
            facts: IndexSet::new(alloc),
        }
    }

    /// Whether a fact is there.
    pub(crate) fn contains(&self, fact: &Fact) -> bool
        ensures { result ≡ list_any (fact_eq fact.now) self.now }
    {
        self.facts.contains(fact)
    }

    /// Adds a fact at the end, where it is new.
    pub(crate) fn insert(&mut self, fact: Fact) -> Result<(), AllocFailed<Fact>>
        ensures { OnOk result (self.new ≡ with_fact self.old fact) }
    {
        self.facts.insert(fact)?;
        Ok(())
    }

    /// The list of the facts.
    pub(crate) fn into_facts(self, alloc: Global) -> Result<Facts, AllocError>
        ensures { IfOk result (λ facts. facts ≡ self) }
    {
        let mut facts = Facts::new(alloc);
        for fact in self.facts {
            facts.push(fact)?;
        }
        Ok(facts)
    }
}
