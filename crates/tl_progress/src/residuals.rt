// What is kept of worlds between calls of progression.
ghost use Rattle.std.specs.Prelude.{◌≡◌, ℕ, None, OnOk, OnErr};
ghost use Rattle.tl_progress.specs.KeptResiduals.{found_in, StaysElsewhere, KeepsNumber, KeepsNothing, KeepsFewer, StaysThere};

use crate::by_world::ByWorld;
use std::alloc::Global;
use tl_syntax::NoMemory;

/// A world, and a formula that comes in there, each by its number. The caller numbers the worlds.
#[derive(Clone, Copy, PartialEq, Eq, Hash)]
pub struct Incoming {
    /// The number of the world.
    pub world: usize,
    /// The number of the formula.
    pub formula: usize,
}

/// What was found of worlds: for a world and a formula the number of what has to hold next. Where
/// many formulas come in to one world, what they have in common is so worked out once.
///
/// Contracts see it as the number that is kept for a world and a formula, where one is.
#[derive(Drop)]
pub struct Residuals {
    pub(crate) alloc: Global,
    pub(crate) table: ByWorld,
}

impl Residuals {
    /// Nothing is kept. It takes no memory.
    pub fn new(alloc: Global) -> Residuals
        ensures { (n k : ℕ) → found_in result n k ≡ None }
    {
        Residuals {
            alloc,
            table: ByWorld::new(alloc),
        }
    }

    /// The number that is kept.
    pub(crate) fn find(&self, incoming: Incoming) -> Option<usize>
        ensures { result ≡ found_in self.now incoming.world incoming.formula }
    {
        self.table.find(incoming)
    }

    /// Whether so many numbers of this world are kept that no more are, as long as it is the
    /// newest.
    pub(crate) fn has_most_of(&self, world: usize) -> bool {
        self.table.has_most_of(world)
    }

    /// Keeps a number.
    pub(crate) fn keep(&mut self, incoming: Incoming, number: usize) -> Result<(), NoMemory>
        ensures kept { OnOk result (KeepsNumber self.old self.new incoming number) }
        ensures refused { OnErr result (StaysThere incoming.world self.old self.new) }
        ensures elsewhere { StaysElsewhere incoming.world self.old self.new }
    {
        match self.table.keep(incoming, number) {
            Ok(()) => Ok(()),
            Err(fault) => Err(fault),
        }
    }

    /// Lets go what is kept of the world of this number, as for a world whose number is given
    /// again. It takes no memory.
    ///
    /// It is quick where no world with a greater number has come since; else all that is kept goes.
    pub fn forget(&mut self, world: usize)
        ensures none { KeepsNothing world self.new }
        ensures fewer { KeepsFewer self.old self.new }
    {
        self.table.forget(world);
    }
}
