// All parts, or any part.
ghost use Rattle.std.specs.Prelude.{◌≡◌};
ghost use Rattle.tl_syntax.specs.Junctions.{deciding_truth};

/// How the truth of a whole goes by that of its parts: `and` and `forall` need all of them, `or`
/// and `exists` any one. The parts are those of a conjunction or a disjunction, or the instances of
/// a bounded quantifier (Bacchus and Kabanza 2000).
#[derive(Clone, Copy, PartialEq, Eq)]
pub enum Junction {
    /// All parts: a conjunction, or a universal quantifier.
    All,
    /// Any part: a disjunction, or an existential quantifier.
    Any,
}

impl Junction {
    /// The truth of a part that decides the whole, which then has the same truth; the whole has the
    /// other one where no part has this one. It takes no memory.
    pub fn deciding_truth(self) -> bool
        ensures { result ≡ deciding_truth self }
    {
        match self {
            Junction::All => false,
            Junction::Any => true,
        }
    }
}
