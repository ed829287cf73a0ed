// Places with their values.

ghost use Rattle.std.specs.Prelude.{◌≡◌, IfOk};

use crate::{Items, NoMemory, Value, Values};
use std::alloc::Global;

/// A function, by its position in the domain's list, with its arguments and the value that it has
/// of them.
#[derive(PartialEq, Eq, Hash, Drop)]
pub struct PlaceValue {
    /// The function's position.
    pub fun: u32,
    /// Its arguments, as many as the function's arity.
    pub args: Values,
    /// The value.
    pub value: Value,
}

/// A list of places with their values.
pub type PlaceValues = Items<PlaceValue>;

impl PlaceValue {
    /// The same place and value again. It fails for want of memory alone.
    pub fn copy(&self, alloc: Global) -> Result<PlaceValue, NoMemory>
        ensures same { IfOk result (λ copy. copy ≡ self.now) }
    {
        let args = self.args.copy(alloc)?;
        Ok(PlaceValue {
            fun: self.fun,
            args,
            value: self.value,
        })
    }
}
