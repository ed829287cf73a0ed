// The table of names.
ghost use Rattle.std.specs.Prelude.{◌≡◌, ◌-◌, ◌<◌, ◌^◌, ℕ, [], ◌∷◌, ◌++◌, length, slice_get, IfOk, OnErr, OnOk, IsOk, IsSome};
ghost use Rattle.std.specs.Rc.{rc_str_bytes};
ghost use Rattle.tl_syntax.specs.Texts.{with_text, number_of, AreDistinct};

mod settled;

use crate::NoMemory;
use std::alloc::{AllocError, Global};
use std::collections::HashMap;
use std::marker::Model;
use std::rc::RcStr;

/// The names of a problem. Each text has one number, its place in the order of first addition.
/// Contracts see the list of the texts, each as its bytes.
#[derive(Drop)]
pub struct Names {
    alloc: Global,
    texts: Vec<RcStr>,
    numbers: HashMap<RcStr, u32>,
}

impl Model for Names {
    ghost use Rattle.std.specs.Prelude.{List, ℕ, map};
    ghost use Rattle.std.specs.HashMap.{get_by};
    ghost use Rattle.std.specs.Rc.{rc_str_bytes};
    ghost use Rattle.std.specs.Str.{bytes_eq};
    ghost use Rattle.tl_syntax.specs.Texts.{IsNumbered};

    ghost Value = { List (List ℕ) };

    ghost view = { λ a. map rc_str_bytes a.texts.items };

    ghost invariant = { λ a. IsNumbered (map rc_str_bytes a.texts.items) (λ text. get_by (λ key. bytes_eq text (rc_str_bytes key)) a.numbers) };
}

impl Names {
    /// The empty table. It takes no memory.
    pub fn new(alloc: Global) -> Names
        ensures { result ≡ [] }
    {
        Names {
            alloc,
            texts: Vec::new(alloc),
            numbers: HashMap::new(alloc),
        }
    }

    /// The number of a text, or `None` where it was not added. It takes no memory.
    pub fn find(&self, text: &str) -> Option<u32>
        ensures number { result ≡ number_of self.now text.now }
        ensures distinct { AreDistinct self.now }
    {
        self.numbers.get(text).copied()
    }

    /// Adds a text, and answers its number. A known text keeps its number and takes no memory, and
    /// a new one gets the number `len`.
    /// A refused call leaves the table as it was.
    pub fn add(&mut self, text: &str) -> Result<u32, NoMemory>
        requires { length self.old < 2 ^ 32 - 1 }
        ensures added { OnOk result (self.new ≡ with_text self.old text.now) }
        ensures number { IfOk result (λ n. number_of self.new text.now ≡ Some n) }
        ensures text { IfOk result (λ n. slice_get self.new n ≡ Some text.now) }
        ensures kept { (n : ℕ) → n < length self.old → slice_get self.new n ≡ slice_get self.old n }
        ensures known { IsSome (number_of self.old text.now) → IsOk result }
        ensures refused { OnErr result (self.new ≡ self.old) }
    {
        match self.find(text) {
            Some(number) => Ok(number),
            None => Ok(self.append(text)?),
        }
    }

    // Puts a copy of a new text at the end.
    fn append(&mut self, text: &str) -> Result<u32, AllocError>
        requires new { number_of self.old text.now ≡ None }
        requires room { length self.old < 2 ^ 32 - 1 }
        ensures added { OnOk result (self.new ≡ self.old ++ text.now ∷ []) }
        ensures number { IfOk result (λ n. n ≡ length self.old) }
        ensures refused { OnErr result (self.new ≡ self.old) }
    {
        let shared = RcStr::from_str(self.alloc, text)?;
        self.append_shared(shared)
    }

    // Puts a new text at the end, which is shared and not copied.
    fn append_shared(&mut self, text: RcStr) -> Result<u32, AllocError>
        requires new { number_of self.old (rc_str_bytes text) ≡ None }
        requires room { length self.old < 2 ^ 32 - 1 }
        ensures added { OnOk result (self.new ≡ self.old ++ rc_str_bytes text ∷ []) }
        ensures number { IfOk result (λ n. n ≡ length self.old) }
        ensures refused { OnErr result (self.new ≡ self.old) }
    {
        let shared = text.clone()?;
        self.texts.reserve(1)?;
        let number = self.texts.len() as u32;
        self.numbers.insert(text, number)?;
        self.texts.push_reserved(shared);
        Ok(number)
    }

    /// The text of a number. It takes no memory.
    pub fn text(&self, number: u32) -> &str
        requires { number < length self.now }
        ensures text { slice_get self.now number ≡ Some result.now }
        ensures number { number_of self.now result.now ≡ Some number }
        ensures distinct { AreDistinct self.now }
    {
        self.texts[number as usize].as_str()
    }

    /// How many texts there are. It takes no memory.
    pub fn len(&self) -> u32
        ensures { result ≡ length self.now }
    {
        self.texts.len() as u32
    }
}
