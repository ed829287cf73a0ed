// The names of operators.
ghost use Rattle.std.specs.Prelude.{◌≡◌, ◌<◌, ◌≤◌, [], ◌∷◌, ◌++◌, length, OnOk};
ghost use Rattle.std.specs.List.{list_any};
ghost use Rattle.std.specs.Str.{bytes_eq};

use std::alloc::{AllocError, Global};
use std::marker::Model;

/// The names of operators, in the order of their items. Contracts see the list of their texts.
#[derive(Drop)]
pub(crate) struct OperatorNames<'a> {
    names: Vec<&'a str>,
}

impl<'a> Model for OperatorNames<'a> {
    ghost use Rattle.std.specs.Prelude.{List, ℕ, ◌≤◌, length, map};

    ghost Value = { List (List ℕ) };

    ghost view = { λ a. map (λ s. s.now) a.names.items };

    ghost invariant = { λ a. length a.names.items ≤ 256 };
}

impl<'a> OperatorNames<'a> {
    /// No name. It takes no memory.
    pub(crate) fn new(alloc: Global) -> OperatorNames<'a>
        ensures { result ≡ [] }
    {
        OperatorNames {
            names: Vec::new(alloc),
        }
    }

    /// Whether a name is among them.
    pub(crate) fn contains(&self, text: &str) -> bool
        ensures { result ≡ list_any (bytes_eq text.now) self.now }
    {
        is_among(self.names.as_slice(), text)
    }

    /// How many names there are.
    pub(crate) fn len(&self) -> usize
        ensures count { result ≡ length self.now }
        ensures few { result ≤ 256 }
    {
        self.names.len()
    }

    /// Adds a name at the end, of at most 256.
    pub(crate) fn push(&mut self, text: &'a str) -> Result<(), AllocError>
        requires { length self.old < 256 }
        ensures { OnOk result (self.new ≡ self.old ++ text.now ∷ []) }
    {
        self.names.push(text)?;
        Ok(())
    }
}

/// Whether a text is among these.
fn is_among(texts: &[&str], text: &str) -> bool
    ensures { result ≡ list_any (λ one. bytes_eq text.now one.now) texts.now }
{
    texts.iter().any(|one| text == *one)
}
