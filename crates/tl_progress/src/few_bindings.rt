// A few bindings.
ghost use Rattle.std.specs.Prelude.{◌≡◌, ◌∷◌, ◌++◌, [], IsTrue};

use std::marker::Model;
use tl_syntax::Binding;

/// How many bindings there may be.
const FEW: usize = 4;

/// A few bindings in their order. They stand in place, and take no memory.
#[derive(Drop)]
pub(crate) struct FewBindings {
    items: [Binding; 4],
    count: usize,
}

impl Model for FewBindings {
    ghost use Rattle.std.specs.Prelude.{◌≤◌, List, take};
    ghost use Rattle.tl_syntax.specs.declared.substitution.Binding.{Binding as OneBinding};

    ghost Value = { List OneBinding };

    ghost view = { λ few. take few.count few.items };

    ghost invariant = { λ few. few.count ≤ 4 };
}

impl FewBindings {
    /// No binding.
    pub fn new() -> FewBindings
        ensures { result ≡ [] }
    {
        let none = Binding {
            slot: 0,
            value: None,
        };
        FewBindings {
            items: [none; 4],
            count: 0,
        }
    }

    /// The bindings in their order.
    pub fn as_slice(&self) -> &[Binding]
        ensures { result.now ≡ self.now }
    {
        &self.items[..self.count]
    }

    /// Adds a binding at the end. False: there is no room for it.
    pub fn push(&mut self, binding: Binding) -> bool
        ensures { IsTrue result → self.new ≡ self.old ++ binding ∷ [] }
    {
        if self.count == FEW {
            return false;
        }
        self.items[self.count] = binding;
        self.count += 1;
        true
    }
}
