// Ground facts.

ghost use Rattle.std.specs.Prelude.{◌≡◌, IfOk};

use crate::{Items, NoMemory, Values};
use std::alloc::Global;
use std::cmp::Ordering;

/// A predicate, by its position in the domain's list, with its values.
#[derive(PartialEq, Eq, PartialOrd, Ord, Hash, Drop)]
pub struct Fact {
    /// The predicate's position.
    pub pred: u32,
    /// Its values, as many as the predicate's arity.
    pub args: Values,
}

/// A list of facts.
pub type Facts = Items<Fact>;

impl Fact {
    ghost use Rattle.tl_syntax.specs.Keys.{fact_cmp};

    /// The same fact again. It fails for want of memory alone.
    pub fn copy(&self, alloc: Global) -> Result<Fact, NoMemory>
        ensures same { IfOk result (λ copy. copy ≡ self.now) }
    {
        let args = self.args.copy(alloc)?;
        Ok(Fact {
            pred: self.pred,
            args,
        })
    }

    /// How the two stand by predicate and then by arguments in value order. The derived order is
    /// the same.
    pub fn order(&self, other: &Fact) -> Ordering
        ensures { result ≡ fact_cmp self.now other.now }
    {
        self.cmp(other)
    }
}
