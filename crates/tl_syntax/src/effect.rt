// Effects of operators.
ghost use Rattle.std.specs.Prelude.{◌≡◌, [], ◌∷◌, ◌++◌, OnOk, OnErr};
ghost use Rattle.tl_syntax.specs.TreeOfEffect.{effects_in};

use crate::{Bound, Formula, Term, Terms, Vars};
use std::alloc::{AllocError, Global};

/// An effect of an operator (Pednault 1989, ADL).
///
/// Predicates and functions are named by their position in the domain's list.
/// All conditions, bounds and terms are read in the world before the action.
#[cycle(effect)]
#[derive(Drop)]
pub enum Effect {
    /// The fact is added.
    Add(u32, Terms),
    /// The fact is deleted.
    Del(u32, Terms),
    /// The place gets the value of the term.
    Assign(u32, Terms, Term),
    /// The effects, where the condition is true.
    When(Formula, Effects),
    /// The effects, for every tuple of the bound.
    Each(Vars, Bound, Effects),
}

/// A list of effects.
#[cycle(effect)]
#[derive(Drop)]
pub struct Effects {
    items: Vec<Effect>,
}

impl Effects {
    /// The empty list. It takes no memory.
    pub fn new(alloc: Global) -> Effects
        ensures { effects_in result ≡ [] }
    {
        Effects {
            items: Vec::new(alloc),
        }
    }

    /// The effects in their order. It takes no memory.
    pub fn as_slice(&self) -> &[Effect]
        ensures { result.now ≡ effects_in self.now }
    {
        self.items.as_slice()
    }

    /// Adds an effect at the end. A refused call drops the effect.
    pub fn push(&mut self, item: Effect) -> Result<(), AllocError>
        ensures added { OnOk result (effects_in self.new ≡ effects_in self.old ++ item ∷ []) }
        ensures unchanged { OnErr result (effects_in self.new ≡ effects_in self.old) }
    {
        self.items.push(item)?;
        Ok(())
    }
}
