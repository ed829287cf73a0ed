// What is kept of worlds, entry by entry.
ghost use Rattle.std.specs.Prelude.{◌≡◌, [], ℕ, None, Some, OnOk, OnErr};
ghost use Rattle.tl_progress.specs.declared.residuals.Incoming.{Incoming as PlainIncoming};
ghost use Rattle.tl_progress.specs.WorldsKept.{number_for, HasPut};

use crate::residuals::Incoming;
use indexmap::IndexMap;
use std::alloc::Global;
use std::marker::Model;
use tl_syntax::NoMemory;

/// How many numbers of the newest world are kept at most. A formula with more parts than that is
/// mostly met in one world only.
const MOST: usize = 32;

/// Numbers for worlds and formulas, in the order in which they came. The newest world has the
/// greatest number of all that are kept.
///
/// Contracts see the entries.
#[derive(Drop)]
pub(crate) struct ByWorld {
    table: IndexMap<Incoming, usize>,
    newest: usize,
    begins: usize,
}

impl Model for ByWorld {
    ghost use Rattle.std.specs.Prelude.{ℕ, List};
    ghost use Rattle.tl_progress.specs.declared.residuals.Incoming.{Incoming as OneIncoming};
    ghost use Rattle.tl_progress.specs.WorldsKept.{NewestEnds};

    ghost Value = { List (OneIncoming × ℕ) };

    ghost view = { λ b. b.table.entries };

    ghost invariant = { λ b. NewestEnds b.newest b.begins b.table.entries };
}

impl ByWorld {
    /// No entry. It takes no memory.
    pub fn new(alloc: Global) -> ByWorld
        ensures { result ≡ [] }
    {
        ByWorld {
            table: IndexMap::new(alloc),
            newest: 0,
            begins: 0,
        }
    }

    /// The number that is kept.
    pub fn find(&self, incoming: Incoming) -> Option<usize>
        ensures { result ≡ number_for self.now incoming }
    {
        match self.table.get(&incoming) {
            Some(number) => Some(*number),
            None => None,
        }
    }

    /// Whether so many numbers of this world are kept that no more are, as long as it is the
    /// newest.
    pub fn has_most_of(&self, world: usize) -> bool {
        world == self.newest && MOST < self.table.len().saturating_sub(self.begins)
    }

    /// Keeps a number.
    pub fn keep(&mut self, incoming: Incoming, number: usize) -> Result<(), NoMemory>
        ensures kept { OnOk result (HasPut self.old self.new incoming number) }
        ensures refused { OnErr result (self.new ≡ self.old) }
    {
        if self.newest < incoming.world {
            self.newest = incoming.world;
            self.begins = self.table.len();
        }
        match self.table.insert(incoming, number) {
            Ok(_) => Ok(()),
            Err(_) => Err(NoMemory),
        }
    }

    /// Lets go what is kept of a world: of the newest what came since its first entry, and of one
    /// before it all that is kept. It takes no memory.
    pub fn forget(&mut self, world: usize)
        ensures none { (k : ℕ) → number_for self.new (record { world = world; formula = k }) ≡ None }
        ensures fewer { (q : PlainIncoming) (i : ℕ) → number_for self.new q ≡ Some i → number_for self.old q ≡ Some i }
    {
        if self.newest < world {
            return;
        }
        if world < self.newest {
            self.table.clear();
            self.begins = 0;
            return;
        }
        self.table.truncate(self.begins);
        self.newest = world.saturating_sub(1);
        self.begins = 0;
    }
}
