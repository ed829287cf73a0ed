// When the facts of a predicate hold along some states.
ghost use Rattle.std.specs.Prelude.{◌≡◌, IfOk};
ghost use Rattle.tl_check.specs.Tracks.{line_in};
ghost use Rattle.tl_check.specs.Trails.{IsHistoryOf, AreHistoriesOf};

use crate::line::Change;
use crate::predicate_tracks::PredicateTracks;
use crate::tracks::line_of;
use std::alloc::Global;
use std::collections::HashMap;
use tl_syntax::{Fact, NoMemory};
use tl_world::World;

/// When the facts of one predicate hold along some states.
#[derive(Drop)]
pub(crate) struct History {
    /// The predicate.
    pub(crate) pred: u32,
    /// The changes of each fact that holds in one of the states.
    pub(crate) lines: HashMap<Fact, Vec<Change>>,
    /// The world in which each of these facts holds.
    pub(crate) ever: World,
}

impl History {
    /// When the facts of a predicate hold along the states from which these changes are. It fails
    /// for want of memory alone.
    pub(crate) fn of(alloc: Global, tracked: PredicateTracks) -> Result<History, NoMemory>
        ensures { IfOk result (IsHistoryOf tracked) }
    {
        let PredicateTracks { pred, tracks } = tracked;
        let ever = World::of(alloc, tracks.seen.as_slice(), &[])?;
        Ok(History {
            pred,
            lines: tracks.lines,
            ever,
        })
    }

    /// The changes of a fact. It takes no memory.
    pub(crate) fn line(&self, fact: &Fact) -> &[Change]
        ensures { result.now ≡ line_in self.now.lines fact.now }
    {
        line_of(&self.lines, fact)
    }
}

/// When the facts of each predicate hold along the states from which these changes are. It fails
/// for want of memory alone.
pub(crate) fn histories_of(
    alloc: Global,
    all: Vec<PredicateTracks>,
) -> Result<Vec<History>, NoMemory>
    ensures { IfOk result (λ histories. AreHistoriesOf all.items histories.items) }
{
    let mut histories = Vec::new(alloc);
    for tracked in all {
        let history = History::of(alloc, tracked)?;
        histories.push(history)?;
    }
    Ok(histories)
}
