// Quantified formulas.

use tl_syntax::{Bound, Formula, Junction, Vars};

/// A quantifier with the formula below it.
#[derive(Clone, Copy)]
pub(crate) struct Binder<'a> {
    /// All instances, or one.
    pub(crate) junction: Junction,
    /// Its variables.
    pub(crate) vars: &'a Vars,
    /// The bound that gives them their values.
    pub(crate) bound: &'a Bound,
    /// The formula below it.
    pub(crate) part: &'a Formula,
}
