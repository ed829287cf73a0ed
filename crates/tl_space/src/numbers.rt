// Search nodes by numbers.

use tl_search::Arrival;
use tl_syntax::Action;

/// A world and a formula, each by its number: a search node, or an arrival in a world with the
/// formula that comes in.
#[derive(Clone, Copy, PartialEq, Eq, Hash)]
pub(crate) struct Numbers {
    /// The number of the world.
    pub(crate) world: usize,
    /// The number of the formula.
    pub(crate) label: usize,
}

/// How a search node was met first.
#[derive(Drop)]
pub(crate) enum Met {
    /// By the empty path.
    First,
    /// By an action from the search node of this number.
    After(usize, Action),
}

/// What is found of an arrival before a search node is kept.
#[derive(Clone, Copy)]
pub(crate) enum Found {
    /// The search node is pruned, or is kept already.
    Known(Arrival),
    /// The search node of these numbers, which is to be kept.
    New(Numbers),
}
