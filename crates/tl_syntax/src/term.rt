// Terms of formulas and of effects.
ghost use Rattle.std.specs.Prelude.{◌≡◌, ◌↔◌, [], ◌∷◌, ◌++◌, true, IfOk, OnOk, OnErr};
ghost use Rattle.tl_syntax.specs.Bindings.{assignment_of};
ghost use Rattle.tl_syntax.specs.Substitution.{substituted_term, substituted_terms};
ghost use Rattle.tl_syntax.specs.TreeOfTerm.{terms_in, tree_of_term, tree_of_terms};

use crate::substitution::{Binding, value_of};
use crate::{NoMemory, Op, Value, Var};
use std::alloc::{AllocError, Global};

/// A term. Its meaning in a world is a value, or none.
///
/// The derived equality is that of the plain trees, slots and offsets included.
#[cycle(term)]
#[derive(PartialEq, Eq, Hash, Drop)]
pub enum Term {
    /// A variable.
    Var(Var),
    /// A value.
    Val(Value),
    /// The value of a place: a function, by its position in the domain's list, with its arguments.
    Place(u32, Terms),
    /// An operation on two integers. The `u32` is the offset of its form in the domain file, in
    /// bytes.
    Arith(Op, Box<Term>, Box<Term>, u32),
}

/// A list of terms.
#[cycle(term)]
#[derive(PartialEq, Eq, Hash, Drop)]
pub struct Terms {
    items: Vec<Term>,
}

impl Terms {
    /// The empty list. It takes no memory.
    pub fn new(alloc: Global) -> Terms
        ensures { terms_in result ≡ [] }
    {
        Terms {
            items: Vec::new(alloc),
        }
    }

    /// The terms in their order. It takes no memory.
    pub fn as_slice(&self) -> &[Term]
        ensures { result.now ≡ terms_in self.now }
    {
        self.items.as_slice()
    }

    /// Adds a term at the end. A refused call drops the term.
    pub fn push(&mut self, item: Term) -> Result<(), AllocError>
        ensures added { OnOk result (terms_in self.new ≡ terms_in self.old ++ item ∷ []) }
        ensures unchanged { OnErr result (terms_in self.new ≡ terms_in self.old) }
    {
        self.items.push(item)?;
        Ok(())
    }

    /// The same list again. It fails for want of memory alone.
    #[tactic(auto, using(crate::proofs::NothingPutIn::nothing_put_in))]
    pub fn copy(&self, alloc: Global) -> Result<Terms, NoMemory>
        ensures same { IfOk result (λ copy. tree_of_terms copy ≡ tree_of_terms self.now) }
    {
        self.with_values(alloc, &[])
    }

    /// The list with the values put in. It fails for want of memory alone.
    #[cycle(put_in_terms)]
    pub(crate) fn with_values(&self, alloc: Global, bindings: &[Binding]) -> Result<Terms, NoMemory>
        ensures substituted { IfOk result (λ out. tree_of_terms out
            ≡ substituted_terms (assignment_of bindings.now) (tree_of_terms self.now)) }
    {
        let mut out = Terms {
            items: Vec::new(alloc),
        };
        for term in self.items.iter() {
            let one = term.with_values(alloc, bindings)?;
            out.items.push(one)?;
        }
        Ok(out)
    }

    /// Whether the two lists are the same: the derived equality tells exactly the plain trees
    /// apart.
    pub fn is_same(&self, list: &Terms) -> bool
        ensures same { (result ≡ true) ↔ (tree_of_terms self.now ≡ tree_of_terms list.now) }
    {
        self == list
    }
}

impl Term {
    /// The same term again: no value is put in. It fails for want of memory alone.
    #[tactic(auto, using(crate::proofs::NothingPutIn::nothing_put_in))]
    pub fn copy(&self, alloc: Global) -> Result<Term, NoMemory>
        ensures same { IfOk result (λ copy. tree_of_term copy ≡ tree_of_term self.now) }
    {
        self.with_values(alloc, &[])
    }

    /// The term with the values put in. It fails for want of memory alone.
    #[cycle(put_in_terms)]
    #[tactic(auto, using(crate::proofs::TermTrees::term_trees), unfolding(crate::specs::Substitution::substituted_term))]
    pub(crate) fn with_values(&self, alloc: Global, bindings: &[Binding]) -> Result<Term, NoMemory>
        ensures substituted { IfOk result (λ out. tree_of_term out
            ≡ substituted_term (assignment_of bindings.now) (tree_of_term self.now)) }
    {
        match self {
            Term::Var(var) => match value_of(bindings, var.slot) {
                Some(value) => Ok(Term::Val(value)),
                None => Ok(Term::Var(*var)),
            },
            Term::Val(value) => Ok(Term::Val(*value)),
            Term::Place(fun, args) => {
                let args = args.with_values(alloc, bindings)?;
                Ok(Term::Place(*fun, args))
            }
            Term::Arith(op, left, right, at) => {
                let left = Box::new(alloc, left.with_values(alloc, bindings)?)?;
                let right = Box::new(alloc, right.with_values(alloc, bindings)?)?;
                Ok(Term::Arith(*op, left, right, *at))
            }
        }
    }

    /// Whether the two terms are the same: the derived equality tells exactly the plain trees
    /// apart.
    pub fn is_same(&self, other: &Term) -> bool
        ensures same { (result ≡ true) ↔ (tree_of_term self.now ≡ tree_of_term other.now) }
    {
        self == other
    }
}
