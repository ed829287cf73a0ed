// Formulas, and lists of them.
ghost use Rattle.std.specs.Prelude.{◌≡◌, ◌↔◌, [], ◌∷◌, ◌++◌, true, IfOk, OnOk, OnErr};
ghost use Rattle.tl_syntax.specs.Basic.{is_basic};
ghost use Rattle.tl_syntax.specs.Bindings.{assignment_of};
ghost use Rattle.tl_syntax.specs.SubstitutedParts.{substituted_comparison, substituted_goal_place, substituted_quantified};
ghost use Rattle.tl_syntax.specs.Substitution.{substituted, substituted_all, substituted_args, substituted_bound, substituted_terms};
ghost use Rattle.tl_syntax.specs.TreeOfFormula.{formulas_in, tree_of_formula, tree_of_formulas};
ghost use Rattle.tl_syntax.specs.TreeOfTerm.{tree_of_terms};
ghost use Rattle.tl_syntax.specs.Trees.{atom, defined, goal_fact, goal_not, until};

use crate::substitution::{
    Binding, arg_with_values, args_with_values, bindings_below, bound_with_values,
};
use crate::{Arg, Args, Bound, Cmp, Junction, NoMemory, Term, Terms, Vars};
use std::alloc::{AllocError, Global};

/// A formula of first-order linear temporal logic with bounded quantifiers and a goal modality
/// (Bacchus and Kabanza 2000). Predicates, functions and definitions are named by their position in
/// the domain's list. `(implies F G)` is the disjunction of the negated F and G.
#[cycle(formula)]
#[derive(PartialEq, Eq, Hash, Drop)]
pub enum Formula {
    /// The constant true.
    True,
    /// The constant false.
    False,
    /// The fact is in the world.
    Atom(u32, Terms),
    /// The body of a definition holds of the arguments.
    Defined(u32, Terms),
    /// The two terms stand in this comparison.
    Compare(Cmp, Term, Term),
    /// The fact is in the goal list.
    GoalFact(u32, Args),
    /// The goal list gives the place this value.
    GoalPlace(u32, Args, Arg),
    /// The goal list has the negated fact.
    GoalNot(u32, Args),
    /// The formula does not hold.
    Not(Box<Formula>),
    /// All formulas hold.
    And(Formulas),
    /// Some formula holds.
    Or(Formulas),
    /// The formula holds for every tuple of the bound.
    ForAll(Vars, Bound, Box<Formula>),
    /// The formula holds for some tuple of the bound.
    Exists(Vars, Bound, Box<Formula>),
    /// The formula holds in the next state.
    Next(Box<Formula>),
    /// The formula holds from now on.
    Always(Box<Formula>),
    /// The formula holds now or later.
    Eventually(Box<Formula>),
    /// The second formula holds now or later, and the first one until then.
    Until(Box<Formula>, Box<Formula>),
    /// The formula holds now or at one of this number of states that follow.
    Within(u32, Box<Formula>),
    /// The formula holds now and at each of this number of states that follow. It is written `for`.
    During(u32, Box<Formula>),
}

/// A list of formulas.
#[cycle(formula)]
#[derive(PartialEq, Eq, Hash, Drop)]
pub struct Formulas {
    items: Vec<Formula>,
}

impl Formulas {
    /// The empty list. It takes no memory.
    pub fn new(alloc: Global) -> Formulas
        ensures { formulas_in result ≡ [] }
    {
        Formulas {
            items: Vec::new(alloc),
        }
    }

    /// The formulas in their order. It takes no memory.
    pub fn as_slice(&self) -> &[Formula]
        ensures { result.now ≡ formulas_in self.now }
    {
        self.items.as_slice()
    }

    /// Adds a formula at the end. A refused call drops the formula.
    pub fn push(&mut self, item: Formula) -> Result<(), AllocError>
        ensures added { OnOk result (formulas_in self.new ≡ formulas_in self.old ++ item ∷ []) }
        ensures unchanged { OnErr result (formulas_in self.new ≡ formulas_in self.old) }
    {
        self.items.push(item)?;
        Ok(())
    }

    /// The same list again. It fails for want of memory alone.
    #[tactic(auto, using(crate::proofs::NothingPutIn::nothing_put_in))]
    pub fn copy(&self, alloc: Global) -> Result<Formulas, NoMemory>
        ensures same { IfOk result (λ copy. tree_of_formulas copy ≡ tree_of_formulas self.now) }
    {
        self.with_values(alloc, &[])
    }

    /// The list with the values put in for free variables. It fails for want of memory alone.
    #[cycle(put_in_formulas)]
    pub(crate) fn with_values(
        &self,
        alloc: Global,
        bindings: &[Binding],
    ) -> Result<Formulas, NoMemory>
        ensures substituted { IfOk result (λ out. tree_of_formulas out
            ≡ substituted_all (assignment_of bindings.now) (tree_of_formulas self.now)) }
    {
        let mut out = Formulas {
            items: Vec::new(alloc),
        };
        for formula in self.items.iter() {
            let one = formula.with_values(alloc, bindings)?;
            out.items.push(one)?;
        }
        Ok(out)
    }

    /// Whether the two lists are the same: the derived equality tells exactly the plain trees
    /// apart.
    pub fn is_same(&self, list: &Formulas) -> bool
        ensures same { (result ≡ true) ↔ (tree_of_formulas self.now ≡ tree_of_formulas list.now) }
    {
        self == list
    }
}

impl Formula {
    /// The same formula again: no value is put in. It fails for want of memory alone.
    #[tactic(auto, using(crate::proofs::NothingPutIn::nothing_put_in))]
    pub fn copy(&self, alloc: Global) -> Result<Formula, NoMemory>
        ensures same { IfOk result (λ copy. tree_of_formula copy ≡ tree_of_formula self.now) }
    {
        self.with_values(alloc, &[])
    }

    /// The formula with the values put in for free variables, where the first binding of a slot
    /// counts. It fails for want of memory alone.
    #[cycle(put_in_formulas)]
    #[tactic(auto, using(crate::proofs::FormulaTrees::formula_trees, crate::proofs::Bindings::assignment_below), unfolding(crate::specs::Substitution::substituted))]
    pub fn with_values(&self, alloc: Global, bindings: &[Binding]) -> Result<Formula, NoMemory>
        ensures substituted { IfOk result (λ out. tree_of_formula out
            ≡ substituted (assignment_of bindings.now) (tree_of_formula self.now)) }
    {
        match self {
            Formula::True => Ok(Formula::True),
            Formula::False => Ok(Formula::False),
            Formula::Atom(p, args) => atom_with_values(alloc, *p, args, bindings),
            Formula::Defined(p, args) => defined_with_values(alloc, *p, args, bindings),
            Formula::Compare(cmp, left, right) => {
                comparison_with_values(alloc, *cmp, left, right, bindings)
            }
            Formula::GoalFact(p, args) => goal_fact_with_values(alloc, *p, args, bindings),
            Formula::GoalPlace(f, args, x) => {
                goal_place_with_values(alloc, *f, args, *x, bindings)
            }
            Formula::GoalNot(p, args) => goal_not_with_values(alloc, *p, args, bindings),
            Formula::Not(f) => Formula::not(alloc, f.with_values(alloc, bindings)?),
            Formula::And(parts) => Ok(Formula::And(parts.with_values(alloc, bindings)?)),
            Formula::Or(parts) => Ok(Formula::Or(parts.with_values(alloc, bindings)?)),
            Formula::ForAll(vars, bound, f) => {
                quantified_with_values(alloc, Junction::All, vars, bound, f, bindings)
            }
            Formula::Exists(vars, bound, f) => {
                quantified_with_values(alloc, Junction::Any, vars, bound, f, bindings)
            }
            Formula::Next(f) => Formula::next(alloc, f.with_values(alloc, bindings)?),
            Formula::Always(f) => Formula::always(alloc, f.with_values(alloc, bindings)?),
            Formula::Eventually(f) => Formula::eventually(alloc, f.with_values(alloc, bindings)?),
            Formula::Until(f, g) => {
                let g = g.with_values(alloc, bindings)?;
                until_with_values(alloc, f, g, bindings)
            }
            Formula::Within(n, f) => Formula::within(alloc, *n, f.with_values(alloc, bindings)?),
            Formula::During(n, f) => Formula::during(alloc, *n, f.with_values(alloc, bindings)?),
        }
    }

    /// Whether the two formulas are the same: the derived equality tells exactly the plain trees
    /// apart.
    pub fn is_same(&self, other: &Formula) -> bool
        ensures same { (result ≡ true) ↔ (tree_of_formula self.now ≡ tree_of_formula other.now) }
    {
        self == other
    }

    /// Whether the formula has no formula below it and is no constant. It takes no memory.
    #[tactic(auto, using(crate::proofs::FormulaTrees::formula_trees))]
    pub fn is_basic(&self) -> bool
        ensures { result ≡ is_basic (tree_of_formula self.now) }
    {
        match self {
            Formula::Atom(_, _) => true,
            Formula::Defined(_, _) => true,
            Formula::Compare(_, _, _) => true,
            Formula::GoalFact(_, _) => true,
            Formula::GoalPlace(_, _, _) => true,
            Formula::GoalNot(_, _) => true,
            Formula::True => false,
            Formula::False => false,
            Formula::Not(_) => false,
            Formula::And(_) => false,
            Formula::Or(_) => false,
            Formula::ForAll(_, _, _) => false,
            Formula::Exists(_, _, _) => false,
            Formula::Next(_) => false,
            Formula::Always(_) => false,
            Formula::Eventually(_) => false,
            Formula::Until(_, _) => false,
            Formula::Within(_, _) => false,
            Formula::During(_, _) => false,
        }
    }
}

// An atom with the values put in.
#[tactic(auto, using(crate::proofs::FormulaTrees::formula_trees))]
fn atom_with_values(
    alloc: Global,
    pred: u32,
    args: &Terms,
    bindings: &[Binding],
) -> Result<Formula, NoMemory>
    ensures { IfOk result (λ out. tree_of_formula out
        ≡ atom pred (substituted_terms (assignment_of bindings.now) (tree_of_terms args.now))) }
{
    Ok(Formula::Atom(pred, args.with_values(alloc, bindings)?))
}

// An atom of a definition with the values put in.
#[tactic(auto, using(crate::proofs::FormulaTrees::formula_trees))]
fn defined_with_values(
    alloc: Global,
    number: u32,
    args: &Terms,
    bindings: &[Binding],
) -> Result<Formula, NoMemory>
    ensures { IfOk result (λ out. tree_of_formula out
        ≡ defined number (substituted_terms (assignment_of bindings.now) (tree_of_terms args.now))) }
{
    Ok(Formula::Defined(number, args.with_values(alloc, bindings)?))
}

// A comparison of terms with the values put in.
#[tactic(auto, using(crate::proofs::FormulaTrees::formula_trees))]
fn comparison_with_values(
    alloc: Global,
    cmp: Cmp,
    left: &Term,
    right: &Term,
    bindings: &[Binding],
) -> Result<Formula, NoMemory>
    ensures { IfOk result (λ out. tree_of_formula out
        ≡ substituted_comparison bindings.now cmp left.now right.now) }
{
    let left = left.with_values(alloc, bindings)?;
    let right = right.with_values(alloc, bindings)?;
    Ok(Formula::Compare(cmp, left, right))
}

// A fact of the goal list with the values put in.
#[tactic(auto, using(crate::proofs::FormulaTrees::formula_trees))]
fn goal_fact_with_values(
    alloc: Global,
    pred: u32,
    args: &Args,
    bindings: &[Binding],
) -> Result<Formula, NoMemory>
    ensures { IfOk result (λ out. tree_of_formula out
        ≡ goal_fact pred (substituted_args (assignment_of bindings.now) args.now)) }
{
    Ok(Formula::GoalFact(pred, args_with_values(alloc, args, bindings)?))
}

// A place of the goal list with the values put in.
#[tactic(auto, using(crate::proofs::FormulaTrees::formula_trees))]
fn goal_place_with_values(
    alloc: Global,
    fun: u32,
    args: &Args,
    value: Arg,
    bindings: &[Binding],
) -> Result<Formula, NoMemory>
    ensures { IfOk result (λ out. tree_of_formula out
        ≡ substituted_goal_place bindings.now fun args.now value) }
{
    let args = args_with_values(alloc, args, bindings)?;
    Ok(Formula::GoalPlace(fun, args, arg_with_values(value, bindings)))
}

// A negated fact of the goal list with the values put in.
#[tactic(auto, using(crate::proofs::FormulaTrees::formula_trees))]
fn goal_not_with_values(
    alloc: Global,
    pred: u32,
    args: &Args,
    bindings: &[Binding],
) -> Result<Formula, NoMemory>
    ensures { IfOk result (λ out. tree_of_formula out
        ≡ goal_not pred (substituted_args (assignment_of bindings.now) args.now)) }
{
    Ok(Formula::GoalNot(pred, args_with_values(alloc, args, bindings)?))
}

// That `g` holds now or later, and the first formula with the values put in until then.
#[cycle(put_in_formulas)]
fn until_with_values(
    alloc: Global,
    f: &Formula,
    g: Formula,
    bindings: &[Binding],
) -> Result<Formula, NoMemory>
    ensures { IfOk result (λ out. tree_of_formula out
        ≡ until (substituted (assignment_of bindings.now) (tree_of_formula f.now)) (tree_of_formula g)) }
{
    let f = f.with_values(alloc, bindings)?;
    Formula::until(alloc, f, g)
}

// The formula for every tuple of the bound, or for some one, with the values put in for all
// variables but its own.
#[cycle(put_in_formulas)]
#[tactic(auto, using(crate::proofs::Bindings::assignment_below))]
fn quantified_with_values(
    alloc: Global,
    junction: Junction,
    vars: &Vars,
    bound: &Bound,
    f: &Formula,
    bindings: &[Binding],
) -> Result<Formula, NoMemory>
    ensures { IfOk result (λ out. tree_of_formula out
        ≡ substituted_quantified bindings.now junction vars.now bound.now f.now) }
{
    let below = bindings_below(alloc, vars, bindings)?;
    let (vars, bound) = scope_with_values(alloc, vars, bound, below.as_slice())?;
    let f = f.with_values(alloc, below.as_slice())?;
    Formula::quantified(alloc, junction, vars, bound, f)
}

// The variables again, and the bound with the values put in.
fn scope_with_values(
    alloc: Global,
    vars: &Vars,
    bound: &Bound,
    bindings: &[Binding],
) -> Result<(Vars, Bound), NoMemory>
    ensures vars { IfOk result (λ scope. scope.0 ≡ vars.now) }
    ensures bound { IfOk result (λ scope. scope.1 ≡ substituted_bound (assignment_of bindings.now) bound.now) }
{
    let vars = vars.copy(alloc)?;
    let bound = bound_with_values(alloc, bound, bindings)?;
    Ok((vars, bound))
}
