// How search nodes were met first, one search node after another.
ghost use Rattle.std.specs.Prelude.{◌≡◌, ◌<◌, ◌≤◌, ◌++◌, ◌∷◌, [], length, slice_get, take, Some, IfOk, IfNone, IfSome, OnOk, OnErr};
ghost use Rattle.tl_space.specs.declared.numbers.Met.TheVariants as met;
ghost use Rattle.tl_space.specs.Ways.{met_by, IsWay};
ghost use Rattle.tl_known.specs.NumberedLists.{Stay};

use crate::numbers::Met;
use crate::way::Way;
use indexmap::IndexSet;
use std::alloc::Global;
use std::marker::Model;
use tl_syntax::{Action, NoMemory};

/// How search nodes were met first, one search node after another. Contracts see the list of it.
///
/// Many search nodes are met by one action, so each action is kept once, and a search node by two
/// numbers of 32 bits.
#[derive(Drop)]
pub(crate) struct Ways {
    actions: IndexSet<Action>,
    ways: Vec<Way>,
}

impl Model for Ways {
    ghost use Rattle.std.specs.Prelude.{List};
    ghost use Rattle.tl_space.specs.declared.numbers.Met.{Met as PlainMet};
    ghost use Rattle.tl_space.specs.Ways.{mets_of, IsWay};
    ghost use Rattle.tl_syntax.specs.Lists.{Each};

    ghost Value = { List PlainMet };

    ghost view = { λ w. mets_of w.actions.keys w.ways.items };

    ghost invariant = { λ w. Each (IsWay w.actions.keys) w.ways.items };
}

/// The number of the action: the one that it has, or else the next one.
fn number_action(actions: &mut IndexSet<Action>, action: Action) -> Result<usize, NoMemory>
    ensures stay { Stay actions.old.keys actions.new.keys }
    ensures number { IfOk result (λ n. slice_get actions.new.keys n ≡ Some action) }
{
    let (number, _) = actions.insert_full(action)?;
    Ok(number)
}

/// The way by numbers. It fails for want of memory, and where a number has more than 32 bits.
fn way_of(actions: &mut IndexSet<Action>, met: Met) -> Result<Way, NoMemory>
    ensures stay { Stay actions.old.keys actions.new.keys }
    ensures number { IfOk result (IsWay actions.new.keys) }
    ensures way { IfOk result (λ way. met_by actions.new.keys way ≡ met) }
{
    match met {
        Met::First => Ok(Way::First),
        Met::After(at, action) => {
            let number = number_action(actions, action)?;
            if at > u32::MAX as usize || number > u32::MAX as usize {
                return Err(NoMemory);
            }
            Ok(Way::After(at as u32, number as u32))
        }
    }
}

impl Ways {
    /// Of no search node. It takes no memory.
    pub(crate) fn new(alloc: Global) -> Ways
        ensures { result ≡ [] }
    {
        Ways {
            actions: IndexSet::new(alloc),
            ways: Vec::new(alloc),
        }
    }

    /// Of how many search nodes.
    pub(crate) fn len(&self) -> usize
        ensures { result ≡ length self.now }
    {
        self.ways.len()
    }

    /// Of one search node more. A refused call leaves it as it was.
    pub(crate) fn push(&mut self, met: Met) -> Result<(), NoMemory>
        ensures done { OnOk result (self.new ≡ self.old ++ met ∷ []) }
        ensures refused { OnErr result (self.new ≡ self.old) }
    {
        let way = way_of(&mut self.actions, met)?;
        self.ways.push(way)?;
        Ok(())
    }

    /// Of the first search nodes alone. It takes no memory.
    pub(crate) fn truncate(&mut self, count: usize)
        requires { count ≤ length self.old }
        ensures { self.new ≡ take count self.old }
    {
        self.ways.truncate(count);
    }

    /// The search node before, and the action: None for the search node of the empty path. It takes
    /// no memory.
    pub(crate) fn last_step(&self, at: usize) -> Option<(usize, &Action)>
        requires { at < length self.now }
        ensures none { IfNone result (slice_get self.now at ≡ Some met.First) }
        ensures some { IfSome result (λ r. slice_get self.now at ≡ Some (met.After r.0 r.1.now)) }
    {
        match self.ways[at] {
            Way::First => None,
            Way::After(from, number) => {
                let action = self.actions.get_index(number as usize).unwrap();
                Some((from as usize, action))
            }
        }
    }
}
