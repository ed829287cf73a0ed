// Variables and what they range over.
use tl_syntax::{Bound, Var};

/// Variables and the bound that they range over.
#[derive(Clone, Copy)]
pub struct Binder<'a> {
    /// The variables.
    pub vars: &'a [Var],
    /// The bound whose tuples they get.
    pub bound: &'a Bound,
}
