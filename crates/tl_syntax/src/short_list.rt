// Lists that are mostly short.
ghost use Rattle.std.specs.Cmp.Lexicographic.{pointwise, slice_cmp, slice_partial_cmp, lists_per, lists_equiv, lists_total, lists_po, lists_agrees, lists_ties};
ghost use Rattle.std.specs.Hash as fed;
ghost use Rattle.std.specs.Hash.{items_Alike};
ghost use Rattle.std.specs.Prelude.{◌≡◌, [], ◌∷◌, ◌++◌, IfOk, cond, is_ok, length, ◌==◌};

use crate::NoMemory;
use smallvec::SmallVec;
use std::alloc::{AllocError, Global};
use std::cmp::Ordering;
use std::default::MadeWith;
use std::hash::{Hash, Hasher};
use std::marker::Model;

/// A list, which contracts see as the list of its items. Up to three items stand in the list
/// itself, and take no memory of their own.
#[derive(Drop)]
pub struct ShortList<T> {
    items: SmallVec<T, 3>,
}

impl<T> Model for ShortList<T> {
    ghost use Rattle.std.specs.Prelude.{List};

    ghost Value = { List T };

    ghost view = { λ a. a.items.items };
}

impl<T> ShortList<T> {
    /// The items in their order. It takes no memory.
    pub fn as_slice(&self) -> &[T]
        ensures { result.now ≡ self.now }
    {
        self.items.as_slice()
    }

    /// How many items there are.
    pub fn len(&self) -> usize
        ensures { result ≡ length self.now }
    {
        self.as_slice().len()
    }

    /// Whether there is no item.
    pub fn is_empty(&self) -> bool
        ensures { result ≡ (length self.now == 0) }
    {
        self.as_slice().is_empty()
    }
}

impl<T: MadeWith<Global> + Drop> ShortList<T> {
    /// The empty list. It takes no memory.
    pub fn new(alloc: Global) -> ShortList<T>
        ensures { result ≡ [] }
    {
        ShortList {
            items: SmallVec::new(alloc),
        }
    }

    /// Adds an item at the end. A refused call drops the item and leaves the list as it was.
    pub fn push(&mut self, item: T) -> Result<(), AllocError>
        ensures { self.new ≡ cond (is_ok result) (self.old ++ item ∷ []) self.old }
    {
        self.items.push(item)?;
        Ok(())
    }
}

impl<T: MadeWith<Global> + Copy> ShortList<T> {
    /// Adds items at the end. A refused call leaves the list as it was.
    pub fn extend(&mut self, more: &[T]) -> Result<(), AllocError>
        ensures { self.new ≡ cond (is_ok result) (self.old ++ more.now) self.old }
    {
        self.items.extend_from_slice(more)?;
        Ok(())
    }

    /// The same list again. It fails for want of memory alone.
    pub fn copy(&self, alloc: Global) -> Result<ShortList<T>, NoMemory>
        ensures same { IfOk result (λ copy. copy ≡ self.now) }
    {
        let items = SmallVec::from_slice(alloc, self.items.as_slice())?;
        Ok(ShortList { items })
    }
}

impl<T: PartialEq> PartialEq for ShortList<T> {
    ghost eq = { λ x y. pointwise T.eq x y };

    ghost laws = { lists_per T.laws };

    fn eq(&self, other: &ShortList<T>) -> bool {
        self.as_slice() == other.as_slice()
    }
}

impl<T: Eq> Eq for ShortList<T> {
    ghost laws = { lists_equiv T.Eq.laws };
}

impl<T: PartialOrd> PartialOrd for ShortList<T> {
    ghost partial_cmp = { λ x y. slice_partial_cmp T.partial_cmp x y };

    ghost laws = { lists_po T.PartialOrd.laws };

    fn partial_cmp(&self, other: &ShortList<T>) -> Option<Ordering> {
        self.as_slice().partial_cmp(&other.as_slice())
    }
}

impl<T: Ord> Ord for ShortList<T> {
    ghost cmp = { λ x y. slice_cmp T.cmp x y };

    ghost total = { lists_total T.total };

    ghost matches_partial_cmp = { λ x y. lists_agrees T.matches_partial_cmp x y };

    ghost matches_eq = { λ x y. lists_ties T.cmp T.matches_eq x y };

    fn cmp(&self, other: &ShortList<T>) -> Ordering {
        self.as_slice().cmp(&other.as_slice())
    }
}

impl<T: Hash> Hash for ShortList<T> {
    ghost hash_input = { λ x. fed.slice T.hash_input x };

    ghost respects_eq = { (items_Alike (record { fed = T.respects_eq })).fed };

    fn hash<H: Hasher>(&self, state: &mut H) {
        self.as_slice().hash(state);
    }
}
