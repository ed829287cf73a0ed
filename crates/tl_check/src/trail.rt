// What is kept of the states of a plan, as it is followed.
ghost use Rattle.std.specs.Prelude.{◌≡◌, ◌∷◌, [], List, true, IfOk, OnOk};
ghost use Rattle.tl_check.specs.Trails.{HaveAllSeen, KeepsOne, Follows, FollowsOn};
ghost use Rattle.tl_terms.specs.World.{World as PlainWorld};

use crate::predicate_tracks::{PredicateTracks, all_begun, all_go_on};
use std::alloc::Global;
use tl_action::Changes;
use tl_syntax::NoMemory;
use tl_world::World;

/// What is kept of the states of a plan so far.
#[derive(Drop)]
pub struct Trail {
    /// The last of them.
    pub(crate) world: World,
    /// All of them in their order, or none.
    pub(crate) kept: Vec<World>,
    /// The changes of the facts of some predicates along them.
    pub(crate) tracks: Vec<PredicateTracks>,
}

/// The same world, with its tables shared. It fails for want of memory alone.
fn copy_of(alloc: Global, w: &World) -> Result<World, NoMemory>
    ensures { IfOk result (λ copy. copy ≡ w.now) }
{
    w.changed(alloc, &[], &[], &[])
}

/// Adds the state to those that are kept, where they are to be kept. It fails for want of memory
/// alone.
fn keep(alloc: Global, kept: &mut Vec<World>, w: &World, keeps: bool) -> Result<(), NoMemory>
    ensures { OnOk result (KeepsOne keeps w.now kept.old.items kept.new.items) }
{
    if keeps {
        let copy = copy_of(alloc, w)?;
        kept.push(copy)?;
    }
    Ok(())
}

impl Trail {
    /// The states, where all of them are kept. It takes no memory.
    pub fn worlds(&self) -> &[World]
        ensures { (ws : List PlainWorld) → Follows true ws self.now → result.now ≡ ws }
    {
        self.kept.as_slice()
    }

    /// What is kept of the first state, where the states are to be kept or not. It fails for want
    /// of memory alone.
    pub(crate) fn begun(
        alloc: Global,
        first: &World,
        preds: &[u32],
        keeps: bool,
    ) -> Result<Trail, NoMemory>
        ensures { IfOk result (Follows keeps (first.now ∷ [])) }
    {
        let world = copy_of(alloc, first)?;
        let tracks = all_begun(alloc, preds, first)?;
        let mut kept = Vec::new(alloc);
        keep(alloc, &mut kept, first, keeps)?;
        Ok(Trail {
            world,
            kept,
            tracks,
        })
    }

    /// Adds what is kept of the next state, which the changes make and which so many come before.
    /// It fails for want of memory alone.
    pub(crate) fn go_on(
        &mut self,
        alloc: Global,
        changes: &Changes,
        at: usize,
        keeps: bool,
    ) -> Result<(), NoMemory>
        requires { HaveAllSeen self.old.tracks.items }
        ensures { OnOk result (FollowsOn keeps changes.now at self.old self.new) }
    {
        let next = changes.world_after(alloc, &self.world)?;
        all_go_on(alloc, self.tracks.as_mut_slice(), changes, &next, at)?;
        keep(alloc, &mut self.kept, &next, keeps)?;
        self.world = next;
        Ok(())
    }
}
