// A quantified formula.
use tl_syntax::{Bound, Formula, Junction, Var};

/// A quantified formula: a part that holds for all tuples of a bound, or for any.
#[derive(Clone, Copy)]
pub(crate) struct Quantified<'a> {
    /// All tuples, or any.
    pub(crate) junction: Junction,
    /// The variables that get the values of a tuple.
    pub(crate) vars: &'a [Var],
    /// The bound.
    pub(crate) bound: &'a Bound,
    /// The part.
    pub(crate) part: &'a Formula,
}
