// The text of a basic formula.
ghost use Rattle.std.specs.Prelude.{◌≡◌, true, OnOk};
ghost use Rattle.tl_label.specs.Labels.{formula_text};
ghost use Rattle.tl_label.specs.Lines.{after};
ghost use Rattle.tl_syntax.specs.Basic.{is_basic};
ghost use Rattle.tl_syntax.specs.TreeOfFormula.{tree_of_formula};
ghost use Rattle.tl_syntax.specs.TreeOfTerm.{tree_of_term, tree_of_terms};
ghost use Rattle.tl_syntax.specs.Trees.{atom, defined, compare};

use crate::bounds::{predicate_name, put_goal_fact, put_goal_not, put_goal_place};
use crate::line::Line;
use crate::terms::{put_term, put_terms};
use crate::words::{comparison_sign, definition_name};
use tl_syntax::{Cmp, Formula, NoMemory, Problem, Term, Terms};

/// Puts an atom of a declared predicate at the end.
#[tactic(auto, using(crate::proofs::Parentheses::written), unfolding(crate::specs::Labels::formula_text))]
fn put_atom(problem: &Problem, pred: u32, terms: &Terms, line: &mut Line) -> Result<(), NoMemory>
    ensures { OnOk result (line.new ≡ after line.old
        (formula_text problem.now.names problem.now.domain (atom pred (tree_of_terms terms.now)))) }
{
    line.put(b"(")?;
    line.put(predicate_name(problem, pred).as_bytes())?;
    put_terms(problem, terms, line)?;
    line.put(b")")
}

/// Puts an atom of a definition at the end.
#[tactic(auto, using(crate::proofs::Parentheses::written), unfolding(crate::specs::Labels::formula_text))]
fn put_defined(
    problem: &Problem,
    number: u32,
    terms: &Terms,
    line: &mut Line,
) -> Result<(), NoMemory>
    ensures { OnOk result (line.new ≡ after line.old
        (formula_text problem.now.names problem.now.domain
        (defined number (tree_of_terms terms.now)))) }
{
    let definitions = problem.domain.definitions.as_slice();
    line.put(b"(")?;
    line.put(definition_name(&problem.names, definitions, number).as_bytes())?;
    put_terms(problem, terms, line)?;
    line.put(b")")
}

/// Puts a comparison at the end.
#[tactic(auto, using(crate::proofs::Parentheses::written), unfolding(crate::specs::Labels::formula_text))]
fn put_comparison(
    problem: &Problem,
    cmp: Cmp,
    left: &Term,
    right: &Term,
    line: &mut Line,
) -> Result<(), NoMemory>
    ensures { OnOk result (line.new ≡ after line.old
        (formula_text problem.now.names problem.now.domain
        (compare cmp (tree_of_term left.now) (tree_of_term right.now)))) }
{
    line.put(b"(")?;
    line.put(comparison_sign(cmp).as_bytes())?;
    line.put(b" ")?;
    put_term(problem, left, line)?;
    line.put(b" ")?;
    put_term(problem, right, line)?;
    line.put(b")")
}

/// Puts a basic formula at the end.
pub(crate) fn put_basic(problem: &Problem, f: &Formula, line: &mut Line) -> Result<(), NoMemory>
    requires { is_basic (tree_of_formula f.now) ≡ true }
    ensures { OnOk result (line.new ≡ after line.old
        (formula_text problem.now.names problem.now.domain (tree_of_formula f.now))) }
{
    match f {
        Formula::Atom(pred, terms) => put_atom(problem, *pred, terms, line),
        Formula::Defined(number, terms) => put_defined(problem, *number, terms, line),
        Formula::Compare(cmp, left, right) => put_comparison(problem, *cmp, left, right, line),
        Formula::GoalFact(pred, args) => put_goal_fact(problem, *pred, args, line),
        Formula::GoalPlace(fun, args, value) => put_goal_place(problem, *fun, args, *value, line),
        Formula::GoalNot(pred, args) => put_goal_not(problem, *pred, args, line),
        _ => Ok(()),
    }
}
