// The variables in scope.
ghost use Rattle.std.specs.Prelude.{◌≡◌, ◌<◌, ◌≤◌, [], ◌∷◌, ◌++◌, length, IfOk, IfSome, OnOk};
ghost use Rattle.std.specs.List.{position};
ghost use Rattle.std.specs.Str.{bytes_eq};
ghost use Rattle.tl_formulas.specs.Signatures.{slot_of};

use std::alloc::{AllocError, Global};
use std::marker::Model;

/// The variables in scope. Contracts see the list of their texts; the place of a variable is its
/// slot.
#[derive(Drop)]
pub struct Scope<'a> {
    variables: Vec<&'a str>,
}

impl<'a> Model for Scope<'a> {
    ghost use Rattle.std.specs.Prelude.{List, ℕ, ◌≤◌, length, map};

    ghost Value = { List (List ℕ) };

    ghost view = { λ a. map (λ s. s.now) a.variables.items };

    ghost invariant = { λ a. length a.variables.items ≤ 32 };
}

impl<'a> Scope<'a> {
    /// A scope without variables. It takes no memory.
    pub fn new(alloc: Global) -> Scope<'a>
        ensures { result ≡ [] }
    {
        Scope {
            variables: Vec::new(alloc),
        }
    }

    /// The slot of a variable, where it is in scope.
    pub fn slot(&self, text: &str) -> Option<u32>
        ensures { result ≡ slot_of self.now text.now }
    {
        match place_among(self.variables.as_slice(), text) {
            Some(slot) => Some(slot as u32),
            None => None,
        }
    }

    /// How many variables are in scope.
    pub fn len(&self) -> usize
        ensures count { result ≡ length self.now }
        ensures few { result ≤ 32 }
    {
        self.variables.len()
    }

    /// Adds a variable at the end, of at most 32.
    pub fn push(&mut self, text: &'a str) -> Result<(), AllocError>
        requires { length self.old < 32 }
        ensures { OnOk result (self.new ≡ self.old ++ text.now ∷ []) }
    {
        self.variables.push(text)?;
        Ok(())
    }

    /// The same variables again.
    pub fn copy(&self, alloc: Global) -> Result<Scope<'a>, AllocError>
        ensures { IfOk result (λ copy. copy ≡ self.now) }
    {
        Ok(Scope {
            variables: Vec::from_slice(alloc, self.variables.as_slice())?,
        })
    }
}

/// The place of a text.
fn place_among(texts: &[&str], text: &str) -> Option<usize>
    ensures place { result ≡ position (λ one. bytes_eq text.now one.now) texts.now }
    ensures within { IfSome result (λ place. place < length texts.now) }
{
    texts.iter().position(|one| text == *one)
}
