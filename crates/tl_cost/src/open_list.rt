// The open list: the kept search nodes that are still to be settled, in the order in which they
// are.
ghost use Rattle.std.specs.Prelude.{◌≡◌, ◌+◌, true, false, IfNone, IfSome, OnOk};
ghost use Rattle.tl_cost.specs.Ways.{is_listed, listed_len, Adds, Drops, IsFirstOf};
ghost use Rattle.tl_cost.specs.declared.open_list.Entry.{Entry};

use std::alloc::Global;
use std::collections::BTreeSet;
use tl_syntax::NoMemory;

/// A kept search node that is still to be settled. Entries are ordered by cost, then by length, and
/// then by number.
#[derive(Clone, Copy, PartialEq, Eq, PartialOrd, Ord)]
pub(crate) struct Entry {
    /// The cost of its way.
    pub(crate) cost: u64,
    /// How many actions its way has.
    pub(crate) length: usize,
    /// Its number.
    pub(crate) number: usize,
}

/// The search nodes that are still to be settled (the open list of uniform-cost search; Dijkstra
/// 1959).
#[derive(Drop)]
pub(crate) struct OpenList {
    pub(crate) entries: BTreeSet<Entry>,
}

impl OpenList {
    /// The list without entries.
    pub(crate) fn new(alloc: Global) -> OpenList
        ensures none { (e : Entry) → is_listed result e ≡ false }
        ensures len { listed_len result ≡ 0 }
    {
        OpenList {
            entries: BTreeSet::new(alloc),
        }
    }

    /// Adds an entry.
    pub(crate) fn add(&mut self, entry: Entry) -> Result<(), NoMemory>
        requires { is_listed self.old entry ≡ false }
        ensures adds { OnOk result (Adds (is_listed self.old) (is_listed self.new) entry) }
        ensures len { OnOk result (listed_len self.new ≡ listed_len self.old + 1) }
    {
        self.entries.insert(entry)?;
        Ok(())
    }

    /// Takes an entry out.
    pub(crate) fn remove(&mut self, entry: Entry)
        requires { is_listed self.old entry ≡ true }
        ensures drops { Drops (is_listed self.old) (is_listed self.new) entry }
        ensures len { listed_len self.new + 1 ≡ listed_len self.old }
    {
        self.entries.remove(&entry);
    }

    /// Takes the first entry out, where there is one.
    pub(crate) fn take_first(&mut self) -> Option<Entry>
        ensures none { IfNone result ((e : Entry) → is_listed self.old e ≡ false) }
        ensures member { IfSome result (λ e. is_listed self.old e ≡ true) }
        ensures first { IfSome result (IsFirstOf (is_listed self.old)) }
        ensures drops { IfSome result (Drops (is_listed self.old) (is_listed self.new)) }
        ensures len { IfSome result (λ _. listed_len self.new + 1 ≡ listed_len self.old) }
    {
        self.entries.pop_first()
    }
}
