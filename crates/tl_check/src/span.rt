// Positions in a row.

/// Positions in a row: from the first one on, up to one that is not among them.
#[derive(Clone, Copy)]
pub(crate) struct Span {
    /// The first position.
    pub(crate) from: usize,
    /// The position after the last one.
    pub(crate) to: usize,
}
