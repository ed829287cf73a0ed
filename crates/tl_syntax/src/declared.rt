// Declared predicates and functions.

use crate::Items;

/// A predicate or a function as a domain declares it. Trees name it by its position in the domain's
/// list.
#[derive(Clone, Copy, PartialEq, Eq)]
pub struct Declared {
    /// The number of its name.
    pub name: u32,
    /// How many arguments it has.
    pub arity: u32,
}

/// A list of declarations.
pub type Declareds = Items<Declared>;
