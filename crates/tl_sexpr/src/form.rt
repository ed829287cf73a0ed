// A form and a list of forms.
ghost use Rattle.std.specs.Prelude.{◌≡◌, [], ◌∷◌, ◌++◌, OnOk, OnErr};

use crate::Text;
use std::alloc::{AllocError, Global};

/// A form of a file. The `u32` is the offset of its first byte in the file.
#[cycle(form)]
#[derive(Drop)]
pub enum Form {
    /// A symbol with its text.
    Sym(Text, u32),
    /// An integer of 64 bits.
    Int(i64, u32),
    /// A parenthesised list.
    List(Forms, u32),
}

/// A list of forms.
#[cycle(form)]
#[derive(Drop)]
pub struct Forms {
    items: Vec<Form>,
}

impl Forms {
    ghost use Rattle.tl_sexpr.specs.Tree.{items_of};

    /// The empty list. It takes no memory.
    pub fn new(alloc: Global) -> Forms
        ensures { items_of result ≡ [] }
    {
        Forms {
            items: Vec::new(alloc),
        }
    }

    /// The forms in their order. It takes no memory.
    pub fn as_slice(&self) -> &[Form]
        ensures { result.now ≡ items_of self.now }
    {
        self.items.as_slice()
    }

    /// Adds a form at the end. A refused call drops the form.
    pub fn push(&mut self, item: Form) -> Result<(), AllocError>
        ensures added { OnOk result (items_of self.new ≡ items_of self.old ++ item ∷ []) }
        ensures unchanged { OnErr result (items_of self.new ≡ items_of self.old) }
    {
        self.items.push(item)?;
        Ok(())
    }
}
