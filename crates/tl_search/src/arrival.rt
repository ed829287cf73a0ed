// What comes of an action.

/// What comes of an action: the search node after it is pruned, is kept already, or is new (Bacchus
/// and Kabanza 2000).
#[derive(Clone, Copy, PartialEq, Eq)]
pub enum Arrival {
    /// The residual is FALSE, so no plan goes on from here, and the search node is not kept.
    Pruned,
    /// The search node of this number is the same.
    Seen(usize),
    /// The search node is kept under this number.
    Fresh(usize),
}
