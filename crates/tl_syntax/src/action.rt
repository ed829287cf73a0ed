// Actions, of which a plan is a list.

ghost use Rattle.std.specs.Prelude.{◌≡◌, IfOk};

use crate::{Items, NoMemory, Values};
use std::alloc::Global;

/// An operator, by its position in the domain's list, with a value for each parameter.
#[derive(PartialEq, Eq, Hash, Drop)]
pub struct Action {
    /// The operator's position.
    pub op: u32,
    /// The values of its parameters, in their order.
    pub args: Values,
}

/// A plan, or another list of actions.
pub type Actions = Items<Action>;

impl Action {
    /// The same action again. It fails for want of memory alone.
    pub fn copy(&self, alloc: Global) -> Result<Action, NoMemory>
        ensures same { IfOk result (λ copy. copy ≡ self.now) }
    {
        let args = self.args.copy(alloc)?;
        Ok(Action { op: self.op, args })
    }
}
