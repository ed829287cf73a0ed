// The lists that are open while bytes are read.
ghost use Rattle.std.specs.Prelude.{◌≡◌, ◌<◌, [], ◌∷◌, ◌++◌, ◌⊎◌, OnOk, IfErr, IfOk, length};

use crate::{Form, Forms, TextFault};
use std::alloc::{AllocError, Global};
use std::mem;

/// How many lists may be open at once.
pub(crate) const MOST_LISTS: usize = 100;

/// A list that is open.
#[derive(Drop)]
pub(crate) struct OpenList {
    /// The offset of its `(`.
    at: u32,
    /// The forms before it in the list around it, or in the file.
    forms: Forms,
}

/// The forms that were read, and the lists that are open.
#[derive(Drop)]
pub(crate) struct Reader {
    /// The open lists, from the outermost.
    open: Vec<OpenList>,
    /// The forms so far in the innermost open list, or in the file where none is open.
    forms: Forms,
}

impl Reader {
    ghost use Rattle.tl_sexpr.specs.Tree.{items_of};
    ghost use Rattle.tl_sexpr.specs.Reading.{Opens, Closes, IsOpenSince};

    /// A reader of an empty file. It takes no memory.
    pub(crate) fn new(alloc: Global) -> Reader
        ensures open { result.open.items ≡ [] }
        ensures forms { items_of result.forms ≡ [] }
    {
        Reader {
            open: Vec::new(alloc),
            forms: Forms::new(alloc),
        }
    }

    /// How many lists are open.
    pub(crate) fn depth(&self) -> usize
        ensures { result ≡ length self.now.open.items }
    {
        self.open.len()
    }

    /// Reads a `(` at this offset.
    pub(crate) fn open_list(&mut self, alloc: Global, at: u32) -> Result<(), AllocError>
        ensures { OnOk result (Opens self.old self.new at) }
    {
        let forms = mem::replace(&mut self.forms, Forms::new(alloc));
        self.open.push(OpenList { at, forms })?;
        Ok(())
    }

    /// Reads a `)` at this offset.
    pub(crate) fn close_list(&mut self, at: u32) -> Result<(), TextFault>
        ensures closed { OnOk result (Closes self.old self.new) }
        ensures stray { IfErr result (λ fault. (fault ≡ TextFault.NoMemory)
            ⊎ ((fault ≡ TextFault.StrayClose at) × (self.old.open.items ≡ []))) }
    {
        let Some(OpenList { at: start, forms }) = self.open.pop() else {
            return Err(TextFault::StrayClose(at));
        };
        let inner = mem::replace(&mut self.forms, forms);
        self.forms.push(Form::List(inner, start))?;
        Ok(())
    }

    /// Reads a token with this form.
    pub(crate) fn add(&mut self, form: Form) -> Result<(), AllocError>
        ensures stack { self.new.open ≡ self.old.open }
        ensures added { OnOk result (items_of self.new.forms ≡ items_of self.old.forms ++ form ∷ []) }
    {
        self.forms.push(form)
    }

    /// The forms of the file at its end.
    pub(crate) fn finish(self) -> Result<Forms, TextFault>
        ensures none_open { OnOk result (self.open.items ≡ []) }
        ensures forms { IfOk result (λ forms. forms ≡ self.forms) }
        ensures unclosed { IfErr result (IsOpenSince self) }
    {
        match self.open.first() {
            Some(list) => Err(TextFault::Unclosed(list.at)),
            None => Ok(self.forms),
        }
    }
}
