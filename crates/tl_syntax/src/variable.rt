// Variables, and arguments that are a variable or a value.

use crate::{Items, Value};

/// A variable. Its slot is the number of variables that are in scope before it.
#[derive(Clone, Copy, PartialEq, Eq, Hash)]
pub struct Var {
    /// The number of variables in scope before it.
    pub slot: u32,
    /// The number of its name.
    pub name: u32,
}

/// A list of variables.
pub type Vars = Items<Var>;

/// A variable or a value.
#[derive(Clone, Copy, PartialEq, Eq, Hash)]
pub enum Arg {
    /// A variable.
    Var(Var),
    /// A value.
    Val(Value),
}

/// A list of arguments.
pub type Args = Items<Arg>;
