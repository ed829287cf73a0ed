// The bounds of an operator in the order in which they are joined.
ghost use Rattle.std.specs.Prelude.{◌<◌, length};

use tl_syntax::{Bound, Operator};

/// An operator with its bounds in the order in which they are joined: one of them before the
/// others.
#[derive(Clone, Copy)]
pub(crate) struct Arranged<'a> {
    /// The operator.
    pub(crate) operator: &'a Operator,
    /// The place of the bound that is joined first.
    pub(crate) first: usize,
    pub(crate) ghost within: { 0 < length operator.now.bounds → first < length operator.now.bounds },
}

impl<'a> Arranged<'a> {
    ghost use Rattle.std.specs.Prelude.{◌≡◌, get_or};
    ghost use Rattle.tl_action.specs.Join.{arranged, bound_count};

    /// How many bounds there are. It takes no memory.
    pub(crate) fn len(&self) -> usize
        ensures { result ≡ bound_count self.now }
    {
        self.operator.bounds.len()
    }

    /// The bound that is joined after `j` others. It takes no memory.
    pub(crate) fn bound(&self, j: usize) -> &'a Bound
        requires { j < bound_count self.now }
        ensures { result.now ≡ get_or (arranged self.now).bounds j result.now }
    {
        let bounds = self.operator.bounds.as_slice();
        if j == 0 {
            &bounds[self.first]
        } else if j <= self.first {
            &bounds[j - 1]
        } else {
            &bounds[j]
        }
    }
}
