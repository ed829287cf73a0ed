// What a search reports.
use tl_syntax::{Action, Items};

/// One arrival of a search: the number of the search node that it came from, the action, and the
/// number of the search node that was met.
#[derive(Drop)]
pub enum Event {
    /// The search node of the empty path is kept as search node 0.
    RootKept,
    /// The residual of the empty path is FALSE.
    RootPruned,
    /// From a search node by an action, a search node that is kept now, under the next number.
    Kept(usize, Action, usize),
    /// From a search node by an action, a search node that was kept before.
    Seen(usize, Action, usize),
    /// From a search node by an action, a search node whose residual is FALSE.
    Pruned(usize, Action),
}

/// Events in the order in which they happened.
pub type Events = Items<Event>;
