// Defined predicates.

use crate::{Formula, Items, Vars};

/// A defined predicate (Bacchus and Kabanza 2000). Formulas name it by its position in the domain's
/// list.
#[derive(Drop)]
pub struct Definition {
    /// The number of its name.
    pub name: u32,
    /// Its parameters, whose slots are 0, 1 and on.
    pub params: Vars,
    /// What it means of its parameters: a formula without temporal words.
    pub body: Formula,
    /// How many levels its body has, of which each names the one below: 1 for `define`, where its
    /// own name is false, and the file's number for `defined`.
    pub levels: u32,
}

/// A list of definitions.
pub type Definitions = Items<Definition>;
