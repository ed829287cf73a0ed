// What a call has worked out.
ghost use Rattle.tl_progress.specs.Known.{IsRightAnywhere};

use indexmap::IndexMap;
use std::alloc::Global;

/// What was worked out for numbers whose trees have no free variable.
#[derive(Drop)]
pub(crate) struct WorkedOut {
    /// The truth of a number's tree where the world is repeated for ever.
    pub truths: IndexMap<usize, bool>,
    /// The number of what has to hold next for a number's tree.
    pub residuals: IndexMap<usize, usize>,
}

impl WorkedOut {
    /// Nothing is known yet. It takes no memory.
    pub fn new(alloc: Global) -> WorkedOut
        ensures { IsRightAnywhere result }
    {
        WorkedOut {
            truths: IndexMap::new(alloc),
            residuals: IndexMap::new(alloc),
        }
    }
}
