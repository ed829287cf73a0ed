// Values, and what is done with them in terms and comparisons.
ghost use Rattle.std.specs.Prelude.{◌≡◌};
ghost use Rattle.tl_syntax.specs.Keys.{value_cmp};

use crate::ShortList;
use std::cmp::Ordering;

/// An integer of 64 bits, or a symbol by the number of its name.
///
/// The derived order puts integers first, by value, and then symbols, by number.
#[derive(Clone, Copy, PartialEq, Eq, PartialOrd, Ord, Hash)]
pub enum Value {
    /// An integer.
    Int(i64),
    /// A symbol, by its name's number.
    Sym(u32),
}

/// The integer 0, which stands in the places of a short list that hold no value yet.
impl Default for Value {
    fn default() -> Value {
        Value::Int(0)
    }
}

impl Value {
    /// How the two stand in value order. The derived order is the same, and is what compares lists
    /// of values and facts.
    pub fn order(self, other: Value) -> Ordering
        ensures { result ≡ value_cmp self other }
    {
        self.cmp(&other)
    }
}

/// A list of values.
pub type Values = ShortList<Value>;

/// An arithmetic operation.
#[derive(Clone, Copy, PartialEq, Eq, Hash)]
pub enum Op {
    /// `+`
    Plus,
    /// `-`
    Minus,
    /// `*`
    Times,
}

/// A comparison of two terms.
#[derive(Clone, Copy, PartialEq, Eq, Hash)]
pub enum Cmp {
    /// `=`: both are defined and the same value
    Eq,
    /// `<`
    Less,
    /// `<=`
    AtMost,
    /// `>`
    More,
    /// `>=`
    AtLeast,
}
