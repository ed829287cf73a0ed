// Bounds of quantified variables and of parameters.

ghost use Rattle.std.specs.Prelude.{◌≡◌, IfOk};

use crate::{Arg, Args, Items, NoMemory};
use std::alloc::Global;

/// A condition that has finitely many tuples (Bacchus and Kabanza 2000, bounded quantification).
///
/// Predicates and functions are named by their position in the domain's list.
#[derive(PartialEq, Eq, Hash, Drop)]
pub enum Bound {
    /// The fact is in the world.
    Fact(u32, Args),
    /// The place has this value in the world.
    Place(u32, Args, Arg),
    /// The fact is in the goal list.
    GoalFact(u32, Args),
    /// The goal list gives the place this value.
    GoalPlace(u32, Args, Arg),
    /// The goal list has the negated fact.
    GoalNot(u32, Args),
}

/// A list of bounds.
pub type Bounds = Items<Bound>;

impl Bound {
    /// The same bound again. It fails for want of memory alone.
    pub fn copy(&self, alloc: Global) -> Result<Bound, NoMemory>
        ensures same { IfOk result (λ copy. copy ≡ self.now) }
    {
        match self {
            Bound::Fact(pred, args) => {
                let args = args.copy(alloc)?;
                Ok(Bound::Fact(*pred, args))
            }
            Bound::Place(fun, args, value) => {
                let args = args.copy(alloc)?;
                Ok(Bound::Place(*fun, args, *value))
            }
            Bound::GoalFact(pred, args) => {
                let args = args.copy(alloc)?;
                Ok(Bound::GoalFact(*pred, args))
            }
            Bound::GoalPlace(fun, args, value) => {
                let args = args.copy(alloc)?;
                Ok(Bound::GoalPlace(*fun, args, *value))
            }
            Bound::GoalNot(pred, args) => {
                let args = args.copy(alloc)?;
                Ok(Bound::GoalNot(*pred, args))
            }
        }
    }
}
