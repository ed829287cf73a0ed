// Trees with values put in are remembered, so that each is made once.
ghost use Rattle.std.specs.Prelude.{◌≡◌, ◌<◌, length, IfSome};
ghost use Rattle.tl_nodes.specs.Numbers.{trees, Denotes, filled_at};

use super::Nodes;
use super::filled::{FEW_BINDINGS, Filled, home_of};
use tl_syntax::Binding;

impl Nodes {
    /// The number of the tree with the values put in for free variables, where that is remembered.
    /// It takes no memory.
    pub fn find_filled(&self, at: usize, bindings: &[Binding]) -> Option<usize>
        ensures { IfSome result (λ i. Denotes self.now i (filled_at self.now bindings.now at)) }
    {
        let home = home_of(at, bindings);
        let entry = &self.filled[home];
        if entry.is_of(at, bindings) {
            Some(entry.number)
        } else {
            None
        }
    }

    /// Remembers the number of the tree with the values put in, where they are few. Another one may
    /// be forgotten for it. It takes no memory.
    pub fn keep_filled(&mut self, at: usize, bindings: &[Binding], number: usize)
        requires at { at < length (trees self.old) }
        requires number { Denotes self.old number (filled_at self.old bindings.now at) }
        ensures { trees self.new ≡ trees self.old }
    {
        if bindings.len() > FEW_BINDINGS {
            return;
        }
        let home = home_of(at, bindings);
        let entry = Filled::of(at, bindings, number);
        self.filled[home] = entry;
    }
}
