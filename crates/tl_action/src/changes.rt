// What effects change.
ghost use Rattle.std.specs.Prelude.{◌≡◌, IfOk};
ghost use Rattle.tl_action.specs.ChangedWorlds.{world_after};
ghost use Rattle.tl_action.specs.Collected.{no_changes};

use std::alloc::Global;
use tl_syntax::{Facts, NoMemory, PlaceValues};
use tl_world::World;

/// What effects change: the facts that they delete and add, and the places that they set, with
/// their values.
#[derive(Drop)]
pub struct Changes {
    /// The deleted facts.
    pub dels: Facts,
    /// The added facts.
    pub adds: Facts,
    /// The places that are set.
    pub sets: PlaceValues,
}

impl Changes {
    /// No change. It takes no memory.
    pub fn new(alloc: Global) -> Changes
        ensures { result ≡ no_changes }
    {
        Changes {
            dels: Facts::new(alloc),
            adds: Facts::new(alloc),
            sets: PlaceValues::new(alloc),
        }
    }

    /// Lets all changes go and keeps the room for them. It takes no memory.
    pub(crate) fn clear(&mut self)
        ensures { self.new ≡ no_changes }
    {
        self.dels.clear();
        self.adds.clear();
        self.sets.clear();
    }

    /// The world that the changes make of a world, which stays as it is. It fails for want of
    /// memory alone.
    pub fn world_after(&self, alloc: Global, w: &World) -> Result<World, NoMemory>
        ensures { IfOk result (λ next. next ≡ world_after w.now self.now) }
    {
        w.changed(
            alloc,
            self.dels.as_slice(),
            self.adds.as_slice(),
            self.sets.as_slice(),
        )
    }
}
