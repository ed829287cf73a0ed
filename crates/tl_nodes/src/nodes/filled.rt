// Trees with values put in, as they were found before.
ghost use Rattle.std.specs.Prelude.{◌≡◌, ◌<◌, ◌≤◌, length, IsTrue};
ghost use Rattle.tl_nodes.specs.Filled.{bindings_in, same_bindings, same_option, HasBindings};

use tl_syntax::{Binding, Value};

/// How many are remembered at most.
pub(crate) const PLACES: usize = 1024;

/// How many bindings one may have at most.
pub(crate) const FEW_BINDINGS: usize = 4;

/// What hashes are multiplied by: an odd number whose bits are mixed, from the golden ratio.
const MULTIPLIER: u64 = 0x9e37_79b9_7f4a_7c15;

/// A tree with values put in.
#[derive(Clone, Copy)]
pub(crate) struct Filled {
    /// The number of the tree.
    pub at: usize,
    /// How many bindings count, at most 4.
    pub count: usize,
    /// The bindings, before others that do not count.
    pub bindings: [Binding; 4],
    /// The number of the tree with the values put in.
    pub number: usize,
}

/// The binding of no value, which does not count.
fn no_binding() -> Binding {
    Binding {
        slot: 0,
        value: None,
    }
}

impl Filled {
    /// TRUE with nothing put in.
    pub fn none() -> Filled
        ensures at { result.at ≡ 0 }
        ensures count { result.count ≡ 0 }
        ensures number { result.number ≡ 0 }
    {
        Filled {
            at: 0,
            count: 0,
            bindings: [no_binding(); 4],
            number: 0,
        }
    }

    /// The tree with these bindings put in.
    pub fn of(at: usize, bindings: &[Binding], number: usize) -> Filled
        requires { length bindings.now ≤ 4 }
        ensures at { result.at ≡ at }
        ensures few { result.count ≤ 4 }
        ensures bindings { bindings_in result ≡ bindings.now }
        ensures number { result.number ≡ number }
    {
        let mut kept = [no_binding(); 4];
        kept[..bindings.len()].copy_from_slice(bindings);
        Filled {
            at,
            count: bindings.len(),
            bindings: kept,
            number,
        }
    }

    /// Whether it is that of the tree with these bindings.
    pub fn is_of(&self, at: usize, bindings: &[Binding]) -> bool
        requires { self.now.count ≤ 4 }
        ensures at { IsTrue result → self.now.at ≡ at }
        ensures bindings { IsTrue result → HasBindings self.now bindings.now }
    {
        if self.at != at {
            return false;
        }
        are_same(&self.bindings[..self.count], bindings)
    }
}

/// Whether both are there and the same, or neither is.
fn is_same(value: Option<Value>, other: Option<Value>) -> bool
    ensures { result ≡ same_option value other }
{
    match (value, other) {
        (None, None) => true,
        (Some(u), Some(v)) => u == v,
        _ => false,
    }
}

/// Whether the bindings are the same.
fn are_same(bindings: &[Binding], others: &[Binding]) -> bool
    ensures { result ≡ same_bindings bindings.now others.now }
{
    if bindings.len() != others.len() {
        return false;
    }
    let mut k = 0;
    while k < bindings.len() {
        let a = bindings[k];
        let b = others[k];
        if a.slot != b.slot || !is_same(a.value, b.value) {
            return false;
        }
        k += 1;
    }
    true
}

/// A hash with one more word.
pub(crate) fn mixed(hash: u64, word: u64) -> u64 {
    (hash.rotate_left(5) ^ word).wrapping_mul(MULTIPLIER)
}

/// A value as a word.
pub(crate) fn word_of(value: Option<Value>) -> u64 {
    match value {
        Some(Value::Int(integer)) => integer.cast_unsigned(),
        Some(Value::Sym(number)) => !(number as u64),
        None => 0,
    }
}

/// The place for a tree with these bindings. What is remembered does not depend on it.
pub(crate) fn home_of(at: usize, bindings: &[Binding]) -> usize
    ensures { result < 1024 }
{
    let mut hash = mixed(0, at as u64);
    for binding in bindings.iter() {
        hash = mixed(hash, binding.slot as u64);
        hash = mixed(hash, word_of(binding.value));
    }
    (hash >> 32) as usize & (PLACES - 1)
}
