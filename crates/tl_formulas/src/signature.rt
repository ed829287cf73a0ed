// What is declared and defined so far.
ghost use Rattle.std.specs.Prelude.{◌≡◌, ◌<◌, ◌≤◌, [], ◌∷◌, ◌++◌, length, IfSome, OnOk};
ghost use Rattle.std.specs.List.{position};
ghost use Rattle.std.specs.Str.{bytes_eq};
ghost use Rattle.tl_formulas.specs.Signatures.{place_of, has_arity};

use std::alloc::{AllocError, Global};
use std::marker::Model;

/// A name and its number of arguments.
#[derive(Clone, Copy)]
struct Entry<'a> {
    text: &'a str,
    arity: u32,
}

/// Names in the order of their items, each with its number of arguments. Contracts see the list of
/// the pairs.
#[derive(Drop)]
pub struct Table<'a> {
    entries: Vec<Entry<'a>>,
}

impl<'a> Model for Table<'a> {
    ghost use Rattle.std.specs.Prelude.{List, ℕ, ◌≤◌, length, map};

    ghost Value = { List (List ℕ × ℕ) };

    ghost view = { λ a. map (λ e. (e.text.now, e.arity)) a.entries.items };

    ghost invariant = { λ a. length a.entries.items ≤ 256 };
}

/// What is declared and defined so far, by names.
#[derive(Drop)]
pub struct NameSignature<'a> {
    pub predicates: Table<'a>,
    pub functions: Table<'a>,
    pub definitions: Table<'a>,
}

impl<'a> Table<'a> {
    /// A table without names. It takes no memory.
    pub fn new(alloc: Global) -> Table<'a>
        ensures { result ≡ [] }
    {
        Table {
            entries: Vec::new(alloc),
        }
    }

    /// The place of a name, where it is in the table.
    pub fn place(&self, text: &str) -> Option<u32>
        ensures { result ≡ place_of self.now text.now }
    {
        match place_among(self.entries.as_slice(), text) {
            Some(place) => Some(place as u32),
            None => None,
        }
    }

    /// Whether what stands at a place has so many arguments.
    pub fn has_arity(&self, place: u32, count: usize) -> bool
        ensures { result ≡ has_arity self.now place count }
    {
        match self.entries.get(place as usize) {
            Some(one) => one.arity as usize == count,
            None => false,
        }
    }

    /// How many names are in the table.
    pub fn len(&self) -> usize
        ensures count { result ≡ length self.now }
        ensures few { result ≤ 256 }
    {
        self.entries.len()
    }

    /// Adds a name at the end, of at most 256.
    pub fn push(&mut self, text: &'a str, arity: u32) -> Result<(), AllocError>
        requires { length self.old < 256 }
        ensures { OnOk result (self.new ≡ self.old ++ (text.now, arity) ∷ []) }
    {
        self.entries.push(Entry { text, arity })?;
        Ok(())
    }
}

/// The place of a name.
fn place_among(entries: &[Entry<'_>], text: &str) -> Option<usize>
    ensures place { result ≡ position (λ entry. bytes_eq text.now entry.text.now) entries.now }
    ensures within { IfSome result (λ place. place < length entries.now) }
{
    entries.iter().position(|one| text == one.text)
}
