// A call that failed.

/// A call of a store or a sink that failed. Why is not told.
#[derive(Clone, Copy, PartialEq, Eq)]
pub struct Failed;
