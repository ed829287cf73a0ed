// How a search node was met first, by numbers.

/// How a search node was met first.
#[derive(Clone, Copy)]
pub(crate) enum Way {
    /// By the empty path.
    First,
    /// From the search node of the first number, by the action of the second.
    After(u32, u32),
}
