// The layers of formulas that have several parts.
use tl_syntax::{Bound, Ids, Junction, Vars};

/// A conjunction or a disjunction, as it stands in its node.
#[derive(Clone, Copy)]
pub(crate) struct Join<'a> {
    /// All parts, or any.
    pub junction: Junction,
    /// The number of the formula.
    pub at: usize,
    /// The numbers of its parts.
    pub parts: &'a Ids,
}

/// A conjunction or a disjunction, by its number.
#[derive(Clone, Copy)]
pub(crate) struct JoinAt {
    /// All parts, or any.
    pub junction: Junction,
    /// The number of the formula.
    pub at: usize,
}

/// A quantified formula, as it stands in its node.
#[derive(Clone, Copy)]
pub(crate) struct Quantified<'a> {
    /// All instances, or any.
    pub junction: Junction,
    /// The variables that get the values of a tuple.
    pub vars: &'a Vars,
    /// The bound.
    pub bound: &'a Bound,
    /// The number of the tree below it.
    pub part: usize,
}
