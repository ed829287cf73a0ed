// Patterns of facts and of places, and the tuples that make them true.
ghost use Rattle.std.specs.Prelude.{◌≡◌, ◌≤◌, length};
ghost use Rattle.tl_match.specs.Patterns.{tuple_of};

use tl_syntax::Value;

/// How many parts a pattern has at most, and so how many variables.
pub const MOST_PARTS: usize = 9;

/// A part of a pattern: a value, or a variable by its number.
#[derive(Clone, Copy, PartialEq, Eq)]
pub enum Part {
    /// This value.
    Fixed(Value),
    /// The variable with this number, counted from 0.
    Free(u32),
}

/// A bound with its known values put in (Bacchus and Kabanza 2000, bounded quantification).
#[derive(Clone, Copy)]
pub struct Pattern {
    /// Whether it is of a place with its value, and not of a fact. The value is then the last part.
    pub place: bool,
    /// The position of the predicate or of the function in the domain's list.
    pub name: u32,
    /// The parts, of which the first `len` count.
    pub parts: [Part; MOST_PARTS],
    /// How many parts count, at most `MOST_PARTS`.
    pub len: u32,
    /// How many variables there are, at most `MOST_PARTS`. Each occurs among the parts.
    pub free: u32,
}

/// A value for each variable of a pattern.
#[derive(Clone, Copy)]
pub struct Match {
    /// The values by the variables' numbers, of which the first `len` count.
    pub values: [Value; MOST_PARTS],
    /// How many variables there are, at most `MOST_PARTS`.
    pub len: u32,
}

impl Match {
    /// How many values there is room for.
    #[inline(always)]
    pub fn room(&self) -> usize
        ensures nine { result ≡ 9 }
        ensures values { length self.now.values ≡ result }
    {
        self.values.len()
    }

    /// The values that count. It takes no memory.
    pub fn counted_values(&self) -> &[Value]
        requires { self.now.len ≤ 9 }
        ensures values { result.now ≡ tuple_of self.now }
        ensures count { length result.now ≡ self.now.len }
    {
        &self.values[..self.len as usize]
    }
}
