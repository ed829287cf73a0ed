// The parts of conjunctions and disjunctions.

use tl_syntax::{Formula, Junction};

/// A part of a conjunction or a disjunction.
#[derive(Clone, Copy)]
pub(crate) struct Part<'a> {
    /// Which of the two.
    pub(crate) junction: Junction,
    /// The part.
    pub(crate) formula: &'a Formula,
}
