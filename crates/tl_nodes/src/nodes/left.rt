// What is left of the parts of a join.
ghost use Rattle.std.specs.Prelude.{◌≡◌, ◌<◌, ◌∷◌, ◌++◌, [], true, false, length, IsTrue, IfOk, IfSome};
ghost use Rattle.tl_nodes.specs.Fits.{all_below};
ghost use Rattle.tl_nodes.specs.Left.{distinct_without, kept_with, IsLeft, IsOpened, GoesOnWith};
ghost use Rattle.tl_nodes.specs.Numbers.{trees};

use super::Nodes;
use super::few::{FEW, Few};
use super::join::unit_of;
use indexmap::IndexSet;
use std::alloc::Global;
use tl_syntax::{Junction, NoMemory};

impl Nodes {
    // What is left of the parts, where they are few, none is a join of the same kind, and what is
    // left stands in a row. It takes no memory.
    pub(crate) fn row_left<'a>(&self, parts: &'a [usize], junction: Junction) -> Option<&'a [usize]>
        requires { IsTrue (all_below (length (trees self.now)) parts.now) }
        ensures { IfSome result (λ row. IsOpened (trees self.now) junction parts.now row.now) }
    {
        let mut from = 0;
        let mut to = 0;
        if parts.len() > FEW {
            return None;
        }
        for k in 0..parts.len() {
            let part = parts[k];
            match self.nested(part, junction) {
                Some(_) => return None,
                None => {}
            }
            if is_dropped(&parts[from..to], part, junction) {
                continue;
            }
            if from == to {
                from = k;
            } else if to < k {
                return None;
            }
            to = k + 1;
        }
        Some(&parts[from..to])
    }

    // Puts what is left of the parts to no numbers, where none is nested in a join of a part.
    // False: one is, or there is no memory.
    pub(crate) fn put_few_left(&self, few: &mut Few, parts: &[usize], junction: Junction) -> bool
        requires below { IsTrue (all_below (length (trees self.now)) parts.now) }
        requires none { few.old ≡ [] }
        ensures { IsTrue result → IsOpened (trees self.now) junction parts.now few.new }
    {
        for part in parts.iter() {
            let goes_on = match self.nested(*part, junction) {
                Some(ids) => self.keep_all(few, ids.as_slice(), junction),
                None => keep_one(few, *part, junction),
            };
            if !goes_on {
                return false;
            }
        }
        true
    }

    // Keeps the parts of a join. False: one of them is a join of the same kind, or there is no
    // memory.
    fn keep_all(&self, few: &mut Few, ids: &[usize], junction: Junction) -> bool
        requires { IsTrue (all_below (length (trees self.now)) ids.now) }
        ensures { IsTrue result → GoesOnWith self.now junction ids.now few.old few.new }
    {
        for id in ids.iter() {
            if !self.keep(few, *id, junction) {
                return false;
            }
        }
        true
    }

    // Keeps a part. False: it is a join of the same kind, or there is no memory.
    fn keep(&self, few: &mut Few, id: usize, junction: Junction) -> bool
        requires { id < length (trees self.now) }
        ensures { IsTrue result → GoesOnWith self.now junction (id ∷ []) few.old few.new }
    {
        match self.nested(id, junction) {
            Some(_) => false,
            None => keep_one(few, id, junction),
        }
    }

    // What is left of the parts, however many they open to.
    pub(crate) fn many_left(
        &self,
        parts: &[usize],
        junction: Junction,
    ) -> Result<IndexSet<usize>, NoMemory>
        requires { IsTrue (all_below (length (trees self.now)) parts.now) }
        ensures { IfOk result (λ left. IsLeft (trees self.now) junction parts.now left.keys) }
    {
        let flat = self.flatten(parts, junction)?;
        distinct_but(self.alloc, flat.as_slice(), unit_of(junction))
    }
}

// Whether a number is not kept: it is the constant that is dropped, or is there.
fn is_dropped(row: &[usize], id: usize, junction: Junction) -> bool
    ensures dropped { IsTrue result → row.now ≡ kept_with junction row.now id }
    ensures kept { result ≡ false → row.now ++ id ∷ [] ≡ kept_with junction row.now id }
{
    id == unit_of(junction) || row.contains(&id)
}

// Keeps a number, unless it is the constant that is dropped or is there. False: there is no memory.
fn keep_one(few: &mut Few, id: usize, junction: Junction) -> bool
    ensures { IsTrue result → few.new ≡ kept_with junction few.old id }
{
    if id == unit_of(junction) {
        return true;
    }
    few.insert(id)
}

// The numbers without `unit`, each once.
fn distinct_but(alloc: Global, ids: &[usize], unit: usize) -> Result<IndexSet<usize>, NoMemory>
    ensures { IfOk result (λ s. s.keys ≡ distinct_without unit ids.now) }
{
    let mut kept = IndexSet::new(alloc);
    for id in ids.iter() {
        if *id != unit {
            kept.insert(*id)?;
        }
    }
    Ok(kept)
}
