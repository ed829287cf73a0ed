// Formulas made of formulas, each of which goes to the heap.
ghost use Rattle.std.specs.Prelude.{◌≡◌, IfOk};
ghost use Rattle.tl_syntax.specs.Junctions.{quantified};
ghost use Rattle.tl_syntax.specs.TreeOfFormula.{tree_of_formula};
ghost use Rattle.tl_syntax.specs.Trees.{negation, for_all, for_some, next, always, eventually, until, within, during};

use crate::{Bound, Formula, Junction, NoMemory, Vars};
use std::alloc::Global;

impl Formula {
    /// The negation of the formula. It fails for want of memory alone, and drops the formula then.
    #[tactic(auto, using(crate::proofs::FormulaTrees::formula_trees))]
    pub fn not(alloc: Global, f: Formula) -> Result<Formula, NoMemory>
        ensures made { IfOk result (λ out. tree_of_formula out ≡ negation (tree_of_formula f)) }
    {
        Ok(Formula::Not(Box::new(alloc, f)?))
    }

    /// That the formula holds in the next state. It fails for want of memory alone, and drops the
    /// formula then.
    #[tactic(auto, using(crate::proofs::FormulaTrees::formula_trees))]
    pub fn next(alloc: Global, f: Formula) -> Result<Formula, NoMemory>
        ensures made { IfOk result (λ out. tree_of_formula out ≡ next (tree_of_formula f)) }
    {
        Ok(Formula::Next(Box::new(alloc, f)?))
    }

    /// That the formula holds from now on. It fails for want of memory alone, and drops the formula
    /// then.
    #[tactic(auto, using(crate::proofs::FormulaTrees::formula_trees))]
    pub fn always(alloc: Global, f: Formula) -> Result<Formula, NoMemory>
        ensures made { IfOk result (λ out. tree_of_formula out ≡ always (tree_of_formula f)) }
    {
        Ok(Formula::Always(Box::new(alloc, f)?))
    }

    /// That the formula holds now or later. It fails for want of memory alone, and drops the
    /// formula then.
    #[tactic(auto, using(crate::proofs::FormulaTrees::formula_trees))]
    pub fn eventually(alloc: Global, f: Formula) -> Result<Formula, NoMemory>
        ensures made { IfOk result (λ out. tree_of_formula out ≡ eventually (tree_of_formula f)) }
    {
        Ok(Formula::Eventually(Box::new(alloc, f)?))
    }

    /// That the formula holds now or in one of the next `n` states. It fails for want of memory
    /// alone, and drops the formula then.
    #[tactic(auto, using(crate::proofs::FormulaTrees::formula_trees))]
    pub fn within(alloc: Global, n: u32, f: Formula) -> Result<Formula, NoMemory>
        ensures made { IfOk result (λ out. tree_of_formula out ≡ within n (tree_of_formula f)) }
    {
        Ok(Formula::Within(n, Box::new(alloc, f)?))
    }

    /// That the formula holds now and in each of the next `n` states. It fails for want of memory
    /// alone, and drops the formula then.
    #[tactic(auto, using(crate::proofs::FormulaTrees::formula_trees))]
    pub fn during(alloc: Global, n: u32, f: Formula) -> Result<Formula, NoMemory>
        ensures made { IfOk result (λ out. tree_of_formula out ≡ during n (tree_of_formula f)) }
    {
        Ok(Formula::During(n, Box::new(alloc, f)?))
    }

    /// That `g` holds now or later, and `f` until then. It fails for want of memory alone, and
    /// drops both then.
    #[tactic(auto, using(crate::proofs::FormulaTrees::formula_trees))]
    pub fn until(alloc: Global, f: Formula, g: Formula) -> Result<Formula, NoMemory>
        ensures made { IfOk result (λ out. tree_of_formula out
            ≡ until (tree_of_formula f) (tree_of_formula g)) }
    {
        let f = Box::new(alloc, f)?;
        let g = Box::new(alloc, g)?;
        Ok(Formula::Until(f, g))
    }

    /// That the formula holds for every tuple that makes the bound true. It fails for want of
    /// memory alone, and drops the parts then.
    #[tactic(auto, using(crate::proofs::FormulaTrees::formula_trees))]
    pub fn for_all(alloc: Global, vars: Vars, bound: Bound, f: Formula) -> Result<Formula, NoMemory>
        ensures made { IfOk result (λ out. tree_of_formula out ≡ for_all vars bound (tree_of_formula f)) }
    {
        let f = Box::new(alloc, f)?;
        Ok(Formula::ForAll(vars, bound, f))
    }

    /// That the formula holds for some tuple that makes the bound true. It fails for want of memory
    /// alone, and drops the parts then.
    #[tactic(auto, using(crate::proofs::FormulaTrees::formula_trees))]
    pub fn exists(alloc: Global, vars: Vars, bound: Bound, f: Formula) -> Result<Formula, NoMemory>
        ensures made { IfOk result (λ out. tree_of_formula out ≡ for_some vars bound (tree_of_formula f)) }
    {
        let f = Box::new(alloc, f)?;
        Ok(Formula::Exists(vars, bound, f))
    }

    /// That the formula holds for every tuple of the bound, or for some one. It fails for want of
    /// memory alone, and drops the parts then.
    pub fn quantified(
        alloc: Global,
        junction: Junction,
        vars: Vars,
        bound: Bound,
        f: Formula,
    ) -> Result<Formula, NoMemory>
        ensures made { IfOk result (λ out. tree_of_formula out
            ≡ quantified junction vars bound (tree_of_formula f)) }
    {
        match junction {
            Junction::All => Formula::for_all(alloc, vars, bound, f),
            Junction::Any => Formula::exists(alloc, vars, bound, f),
        }
    }
}
