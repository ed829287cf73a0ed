// A few values, kept without memory.
ghost use Rattle.std.specs.Prelude.{◌≡◌, ◌<◌, ◌≤◌, [], ◌∷◌, ◌++◌, length};

use std::marker::Model;
use tl_syntax::Value;

/// At most 8 values, as the arguments of a fact or a place. Contracts see their list.
#[derive(Drop)]
pub(crate) struct Row {
    values: [Value; 8],
    len: usize,
}

impl Model for Row {
    ghost use Rattle.std.specs.Prelude.{List, take, ◌≤◌};
    ghost use Rattle.tl_syntax.specs.declared.value.Value.{Value as OneValue};
    ghost use Rattle.tl_world.specs.View.{coded_value};
    ghost use Rattle.std.specs.Coded.{coded_list};

    ghost Value = { List OneValue };

    ghost coded = { coded_list coded_value };

    ghost view = { λ r. take r.len r.values };

    ghost invariant = { λ r. r.len ≤ 8 };
}

impl Row {
    /// No value. It takes no memory.
    pub(crate) fn new() -> Row
        ensures { result ≡ [] }
    {
        Row {
            values: [Value::Int(0); 8],
            len: 0,
        }
    }

    /// Adds a value at the end. It takes no memory.
    pub(crate) fn push(&mut self, value: Value)
        requires { length self.old < 8 }
        ensures { self.new ≡ self.old ++ value ∷ [] }
    {
        self.values[self.len] = value;
        self.len += 1;
    }

    /// The values in their order. It takes no memory.
    pub(crate) fn as_slice(&self) -> &[Value]
        ensures { result.now ≡ self.now }
    {
        &self.values[..self.len]
    }
}
