// A domain that is being read, item by item.
ghost use Rattle.std.specs.Prelude.{◌≡◌};
ghost use Rattle.tl_domain.specs.Declarations.{nothing_declared};
ghost use Rattle.tl_domain.specs.MeaningOfItems.{empty_domain};
ghost use Rattle.tl_domain.specs.Readers.{draft_tree};

use crate::operator_names::OperatorNames;
use std::alloc::Global;
use tl_formulas::{NameSignature, Table};
use tl_syntax::{Declareds, Definitions, Domain, Formula, Operators};

/// A domain that is being read: what the items so far declare, and what they stand for.
#[derive(Drop)]
pub(crate) struct Draft<'a> {
    /// The predicates, functions and definitions.
    pub(crate) signature: NameSignature<'a>,
    /// The names of the operators.
    pub(crate) operators: OperatorNames<'a>,
    /// The levels of all `defined` items together, at most 64.
    pub(crate) levels: u32,
    /// Whether there is a control item.
    pub(crate) controlled: bool,
    /// What the items stand for.
    pub(crate) domain: Domain,
}

/// A domain of a name, before its first item. It takes no memory.
#[tactic(auto, using(crate::proofs::Rulesets::formula_trees))]
pub(crate) fn empty_draft<'a>(alloc: Global, name: u32) -> Draft<'a>
    ensures { draft_tree result ≡ (nothing_declared, empty_domain name) }
{
    Draft {
        signature: NameSignature {
            predicates: Table::new(alloc),
            functions: Table::new(alloc),
            definitions: Table::new(alloc),
        },
        operators: OperatorNames::new(alloc),
        levels: 0,
        controlled: false,
        domain: Domain {
            name,
            predicates: Declareds::new(alloc),
            functions: Declareds::new(alloc),
            definitions: Definitions::new(alloc),
            operators: Operators::new(alloc),
            control: Formula::True,
        },
    }
}
