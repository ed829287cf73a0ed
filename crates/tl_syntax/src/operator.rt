// Operators, whose instances are the actions of plans.

use crate::{Bounds, Effects, Formula, Items, Vars};

/// An operator (Pednault 1989, ADL). Actions name it by its position in the domain's list.
#[derive(Drop)]
pub struct Operator {
    /// The number of its name.
    pub name: u32,
    /// Its parameters, whose slots are 0, 1 and on.
    pub params: Vars,
    /// What must be true of the parameters before the precondition is looked at.
    pub bounds: Bounds,
    /// The precondition, a formula without temporal words.
    pub pre: Formula,
    /// What an action of it changes.
    pub effects: Effects,
}

/// A list of operators.
pub type Operators = Items<Operator>;
