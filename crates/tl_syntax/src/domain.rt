// What a domain file declares.

use crate::{Declareds, Definitions, Formula, Operators};

/// A domain: what may stand in facts, what is defined, and what can be done, with the control
/// formula of every plan.
///
/// Trees name a predicate, a function, a definition or an operator by its position in its list.
#[derive(Drop)]
pub struct Domain {
    /// The number of its name.
    pub name: u32,
    /// The declared predicates.
    pub predicates: Declareds,
    /// The declared functions.
    pub functions: Declareds,
    /// The defined predicates.
    pub definitions: Definitions,
    /// The operators.
    pub operators: Operators,
    /// The control formula; the constant true where the file has none.
    pub control: Formula,
}
