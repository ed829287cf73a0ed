// The changes of the facts of a predicate, as a plan is followed.
ghost use Rattle.std.specs.Prelude.{◌∷◌, [], IfOk, OnOk};
ghost use Rattle.tl_check.specs.Trails.{IsTracked, HasSeenAll, HaveAllSeen};
ghost use Rattle.tl_check.specs.Trails.{NotesFact, NotesFacts, TracksOn, TrackAllOn};
ghost use Rattle.tl_syntax.specs.Lists.{Each};

use crate::line::Change;
use crate::tracks::Tracks;
use std::alloc::Global;
use tl_action::Changes;
use tl_syntax::{Fact, NoMemory};
use tl_world::World;

/// The changes of the facts of one predicate, along the states so far.
#[derive(Drop)]
pub(crate) struct PredicateTracks {
    /// The predicate.
    pub(crate) pred: u32,
    /// The changes.
    pub(crate) tracks: Tracks,
}

impl PredicateTracks {
    /// The changes that come with the first state. It fails for want of memory alone.
    pub(crate) fn begun(
        alloc: Global,
        pred: u32,
        first: &World,
    ) -> Result<PredicateTracks, NoMemory>
        ensures { IfOk result (IsTracked (first.now ∷ [])) }
    {
        let mut tracks = Tracks::new(alloc);
        tracks.note_first(alloc, pred, first)?;
        Ok(PredicateTracks { pred, tracks })
    }

    /// Adds what the fact is in a state, where it is of the predicate and that is not what it was
    /// before. It fails for want of memory alone.
    fn note_fact(
        &mut self,
        alloc: Global,
        fact: &Fact,
        w: &World,
        at: usize,
    ) -> Result<(), NoMemory>
        requires { HasSeenAll self.old }
        ensures noted { OnOk result (NotesFact fact.now w.now at self.old self.new) }
        ensures covered { OnOk result (HasSeenAll self.new) }
    {
        if fact.pred != self.pred {
            return Ok(());
        }
        let truth = w.holds(fact.pred, fact.args.as_slice());
        self.tracks.note_new(alloc, fact, Change { at, truth })?;
        Ok(())
    }

    /// Adds what those of the facts that are of the predicate are in a state, where that is not
    /// what they were before. It fails for want of memory alone.
    fn note_facts(
        &mut self,
        alloc: Global,
        facts: &[Fact],
        w: &World,
        at: usize,
    ) -> Result<(), NoMemory>
        requires { HasSeenAll self.old }
        ensures noted { OnOk result (NotesFacts facts.now w.now at self.old self.new) }
        ensures covered { OnOk result (HasSeenAll self.new) }
    {
        for fact in facts.iter() {
            self.note_fact(alloc, fact, w, at)?;
        }
        Ok(())
    }

    /// Adds the changes that come with the next state, which these changes make and which so many
    /// come before. It fails for want of memory alone.
    fn go_on(
        &mut self,
        alloc: Global,
        changes: &Changes,
        next: &World,
        at: usize,
    ) -> Result<(), NoMemory>
        requires { HasSeenAll self.old }
        ensures { OnOk result (TracksOn changes.now next.now at self.old self.new) }
    {
        self.note_facts(alloc, changes.dels.as_slice(), next, at)?;
        self.note_facts(alloc, changes.adds.as_slice(), next, at)?;
        Ok(())
    }
}

/// The changes of the facts of some predicates that come with the first state. It fails for want of
/// memory alone.
pub(crate) fn all_begun(
    alloc: Global,
    preds: &[u32],
    first: &World,
) -> Result<Vec<PredicateTracks>, NoMemory>
    ensures { IfOk result (λ all. Each (IsTracked (first.now ∷ [])) all.items) }
{
    let mut all = Vec::new(alloc);
    for pred in preds.iter() {
        let tracked = PredicateTracks::begun(alloc, *pred, first)?;
        all.push(tracked)?;
    }
    Ok(all)
}

/// Adds the changes of the facts of all these predicates that come with the next state, which these
/// changes make and which so many come before. It fails for want of memory alone.
pub(crate) fn all_go_on(
    alloc: Global,
    all: &mut [PredicateTracks],
    changes: &Changes,
    next: &World,
    at: usize,
) -> Result<(), NoMemory>
    requires { HaveAllSeen all.old }
    ensures { OnOk result (TrackAllOn changes.now next.now at all.old all.new) }
{
    for i in 0..all.len() {
        all[i].go_on(alloc, changes, next, at)?;
    }
    Ok(())
}
