// Formulas without formulas in them, and formulas made of others.
ghost use Rattle.std.specs.Prelude.{◌≡◌, [], ◌∷◌, Box, not};
ghost use Rattle.std.specs.declared.alloc.Global.{Global};
ghost use Rattle.tl_sexpr.specs.Tree.{tree_of};
ghost use Rattle.tl_syntax.specs.declared.formula.Formula.{Formula};
ghost use Rattle.tl_syntax.specs.TreeOfFormula.{formulas_in, tree_of_formula, tree_of_formulas};
ghost use Rattle.tl_syntax.specs.Trees.{no_formula, more_formulas};
ghost use Rattle.tl_formulas.specs.Formulas.{is_constant};
ghost use Rattle.tl_formulas.specs.MeaningOfFormulas.{constant_meant, formula_of_goal, under_word};
ghost use Rattle.tl_formulas.specs.Readers.{bound_of_goal, formula_pair, quantifier_tree, counted_tree};
ghost use Rattle.tl_formulas.specs.Readers.{Makes, ReadsGoalFormula, ReadsComparison};
ghost use Rattle.tl_formulas.specs.Shapes.{unary_word, binary_word, many_word};
ghost use Rattle.tl_rules.specs.Reads.{Reads};
ghost use Rattle.tl_rules.specs.Rules.{breaks_if};
ghost use Rattle.tl_rules.specs.declared.rule.Rule.TheVariants.{Shape};
ghost use Rattle.tl_formulas.specs.declared.words.FormulaWord.TheVariants as word;

use crate::goals::{GoalArgument, goal};
use crate::scope::Scope;
use crate::shapes::{Binary, Pair, Unary};
use crate::signature::NameSignature;
use crate::terms::term;
use std::alloc::Global;
use tl_rules::{FormFault, Rule, Vocabulary, breaks};
use tl_sexpr::Form;
use tl_syntax::{Bound, Cmp, Formula, Formulas, Junction, Vars};

/// A symbol as a formula: a constant.
#[tactic(auto, using(crate::proofs::Rulesets::formulas))]
pub(crate) fn constant(text: &str, at: u32) -> Result<Formula, FormFault>
    ensures { Reads tree_of_formula result (breaks_if (not (is_constant text.now)) Shape at)
        (constant_meant text.now) }
{
    match text {
        "true" => Ok(Formula::True),
        "false" => Ok(Formula::False),
        _ => Err(breaks(Rule::Shape, at)),
    }
}

/// An argument of `goal` as the formula that it is under `goal`.
#[tactic(auto, using(crate::proofs::Rulesets::formulas))]
fn under_goal(goal: GoalArgument) -> Formula
    ensures { tree_of_formula result ≡ formula_of_goal (bound_of_goal goal) }
{
    match goal {
        GoalArgument::Fact(predicate, args) => Formula::GoalFact(predicate, args),
        GoalArgument::Place(function, args, value) => Formula::GoalPlace(function, args, value),
        GoalArgument::Not(predicate, args) => Formula::GoalNot(predicate, args),
    }
}

/// A formula `(goal A)`.
#[tactic(auto, using(crate::proofs::Rulesets::formulas))]
pub(crate) fn goal_formula(
    vocabulary: &Vocabulary<'_, NameSignature<'_>>,
    scope: &Scope<'_>,
    form: &Form,
) -> Result<Formula, FormFault>
    ensures { ReadsGoalFormula vocabulary.now scope.now (tree_of form.now) result }
{
    let goal = goal(vocabulary, scope, form)?;
    Ok(under_goal(goal))
}

/// A comparison of two terms.
#[tactic(auto, using(crate::proofs::Rulesets::formulas, crate::proofs::Called::term_pairs))]
pub(crate) fn comparison(
    vocabulary: &Vocabulary<'_, NameSignature<'_>>,
    scope: &Scope<'_>,
    cmp: Cmp,
    pair: Pair<'_>,
) -> Result<Formula, FormFault>
    ensures { ReadsComparison vocabulary.now scope.now cmp pair.entry result }
{
    let left = term(vocabulary, scope, pair.first)?;
    let right = term(vocabulary, scope, pair.second)?;
    Ok(Formula::Compare(cmp, left, right))
}

/// A formula under a word that stands before one.
#[tactic(auto, using(crate::proofs::Rulesets::formulas))]
pub(crate) fn under_unary(word: Unary, f: Box<Formula>) -> Formula
    ensures { tree_of_formula result
        ≡ under_word (unary_word word) (more_formulas (tree_of_formula f.value) no_formula) }
{
    match word {
        Unary::Not => Formula::Not(f),
        Unary::Next => Formula::Next(f),
        Unary::Always => Formula::Always(f),
        Unary::Eventually => Formula::Eventually(f),
    }
}

/// A formula in a box.
pub(crate) fn in_box(alloc: Global, f: Formula) -> Result<Box<Formula>, FormFault>
    ensures { Reads (λ (x : Box Formula Global). x.value) result [] f }
{
    Ok(Box::new(alloc, f)?)
}

/// A list of one formula.
fn list_of_one(alloc: Global, f: Formula) -> Result<Formulas, FormFault>
    ensures { Reads formulas_in result [] (f ∷ []) }
{
    let mut parts = Formulas::new(alloc);
    parts.push(f)?;
    Ok(parts)
}

/// The disjunction of two formulas.
#[tactic(auto, using(crate::proofs::Rulesets::formulas))]
fn either(alloc: Global, f: Formula, g: Formula) -> Result<Formula, FormFault>
    ensures { Makes (under_word word.Or (formula_pair f g)) result }
{
    let Ok(mut parts) = list_of_one(alloc, f) else {
        drop(g);
        return Err(FormFault::NoMemory);
    };
    parts.push(g)?;
    Ok(Formula::Or(parts))
}

/// The first formula until the second.
#[tactic(auto, using(crate::proofs::Rulesets::formulas))]
fn until(alloc: Global, f: Box<Formula>, g: Formula) -> Result<Formula, FormFault>
    ensures { Makes (under_word word.Until (formula_pair f.value g)) result }
{
    match in_box(alloc, g) {
        Ok(g) => Ok(Formula::Until(f, g)),
        Err(fault) => {
            drop(f);
            Err(fault)
        }
    }
}

/// Two formulas under a word that stands before two; an implication is read as a disjunction.
#[tactic(auto, using(crate::proofs::Rulesets::formulas))]
pub(crate) fn under_binary(
    alloc: Global,
    word: Binary,
    f: Box<Formula>,
    g: Formula,
) -> Result<Formula, FormFault>
    ensures { Makes (under_word (binary_word word) (formula_pair f.value g)) result }
{
    match word {
        Binary::Until => until(alloc, f, g),
        Binary::Implies => either(alloc, Formula::Not(f), g),
    }
}

/// All of the formulas, or any of them.
#[tactic(auto, using(crate::proofs::Rulesets::formulas))]
pub(crate) fn under_many(junction: Junction, parts: Formulas) -> Formula
    ensures { tree_of_formula result ≡ under_word (many_word junction) (tree_of_formulas parts) }
{
    match junction {
        Junction::All => Formula::And(parts),
        Junction::Any => Formula::Or(parts),
    }
}

/// A formula under a quantifier: for all values of the variables in the bound, or for any.
#[tactic(auto, using(crate::proofs::Rulesets::formulas))]
pub(crate) fn under_quantifier(
    junction: Junction,
    vars: Vars,
    bound: Bound,
    f: Box<Formula>,
) -> Formula
    ensures { tree_of_formula result ≡ quantifier_tree junction vars bound
        (tree_of_formula f.value) }
{
    match junction {
        Junction::All => Formula::ForAll(vars, bound, f),
        Junction::Any => Formula::Exists(vars, bound, f),
    }
}

/// A formula over a number of steps: for all of them, or for any.
#[tactic(auto, using(crate::proofs::Rulesets::formulas))]
pub(crate) fn under_steps(junction: Junction, steps: u32, f: Box<Formula>) -> Formula
    ensures { tree_of_formula result ≡ counted_tree junction steps (tree_of_formula f.value) }
{
    match junction {
        Junction::All => Formula::During(steps, f),
        Junction::Any => Formula::Within(steps, f),
    }
}
