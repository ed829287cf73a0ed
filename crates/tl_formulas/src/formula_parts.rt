// The parts of a formula's list: whether it has the shape that its first word asks for.
ghost use Rattle.tl_formulas.specs.declared.words.FormulaWord.TheVariants as word;
ghost use Rattle.tl_formulas.specs.Shapes.{unary_word, binary_word, quantifier_word, counted_word, FindsFormulaParts};
ghost use Rattle.tl_rules.specs.Reads.{trees_in};

use crate::shapes::{Binary, Binding, Counted, FormulaParts, Pair, Quantified, Unary};
use crate::variables::variable_list;
use crate::words::FormulaWord;
use tl_rules::parts::{one, three, two};
use tl_sexpr::Form;
use tl_syntax::{Cmp, Junction};

/// The parts of a list whose word stands before one formula.
fn unary_parts(word: Unary, rest: &[Form]) -> Option<FormulaParts<'_>>
    ensures { FindsFormulaParts (unary_word word) (trees_in rest.now) result }
{
    match one(rest) {
        Some(form) => Some(FormulaParts::One(word, form)),
        None => None,
    }
}

/// The parts of a list whose word stands before two formulas.
fn binary_parts(word: Binary, rest: &[Form]) -> Option<FormulaParts<'_>>
    ensures { FindsFormulaParts (binary_word word) (trees_in rest.now) result }
{
    match two(rest) {
        Some((first, second)) => Some(FormulaParts::Two(word, Pair { first, second })),
        None => None,
    }
}

/// The parts of a quantifier: a non-empty list of variables, a bound and a formula.
#[tactic(auto, using(crate::proofs::Counts::quantifier_count))]
fn quantifier_parts(junction: Junction, rest: &[Form]) -> Option<FormulaParts<'_>>
    ensures { FindsFormulaParts (quantifier_word junction) (trees_in rest.now) result }
{
    let Some((list, bound, form)) = three(rest) else {
        return None;
    };
    let Some(list) = variable_list(list) else {
        return None;
    };
    let binding = Binding { list, bound };
    Some(FormulaParts::Quantified(Quantified {
        junction,
        binding,
        form,
    }))
}

/// The parts of a formula over a number of steps: an integer and a formula.
#[tactic(auto, using(crate::proofs::Rulesets::form_trees, crate::proofs::Counts::counted_count))]
fn counted_parts(junction: Junction, rest: &[Form]) -> Option<FormulaParts<'_>>
    ensures { FindsFormulaParts (counted_word junction) (trees_in rest.now) result }
{
    let Some((number, form)) = two(rest) else {
        return None;
    };
    match number {
        Form::Sym(_, _) => None,
        Form::Int(steps, at) => Some(FormulaParts::Counted(Counted {
            junction,
            steps: *steps,
            steps_at: *at,
            form,
        })),
        Form::List(_, _) => None,
    }
}

/// The parts of `(goal A)`.
fn goal_parts(rest: &[Form]) -> Option<FormulaParts<'_>>
    ensures { FindsFormulaParts word.Goal (trees_in rest.now) result }
{
    match one(rest) {
        Some(form) => Some(FormulaParts::Goal(form)),
        None => None,
    }
}

/// The parts of a comparison.
fn comparison_parts(cmp: Cmp, rest: &[Form]) -> Option<FormulaParts<'_>>
    ensures { FindsFormulaParts (word.Compare cmp) (trees_in rest.now) result }
{
    match two(rest) {
        Some((first, second)) => Some(FormulaParts::Compare(cmp, Pair { first, second })),
        None => None,
    }
}

/// The parts of a formula's list with this first word and these elements after it, where they have
/// the shape that the word asks for.
pub(crate) fn formula_parts(word: FormulaWord, rest: &[Form]) -> Option<FormulaParts<'_>>
    ensures { FindsFormulaParts word (trees_in rest.now) result }
{
    match word {
        FormulaWord::Not => unary_parts(Unary::Not, rest),
        FormulaWord::Next => unary_parts(Unary::Next, rest),
        FormulaWord::Always => unary_parts(Unary::Always, rest),
        FormulaWord::Eventually => unary_parts(Unary::Eventually, rest),
        FormulaWord::Implies => binary_parts(Binary::Implies, rest),
        FormulaWord::Until => binary_parts(Binary::Until, rest),
        FormulaWord::And => Some(FormulaParts::Many(Junction::All, rest)),
        FormulaWord::Or => Some(FormulaParts::Many(Junction::Any, rest)),
        FormulaWord::ForAll => quantifier_parts(Junction::All, rest),
        FormulaWord::Exists => quantifier_parts(Junction::Any, rest),
        FormulaWord::During => counted_parts(Junction::All, rest),
        FormulaWord::Within => counted_parts(Junction::Any, rest),
        FormulaWord::Goal => goal_parts(rest),
        FormulaWord::Compare(cmp) => comparison_parts(cmp, rest),
        FormulaWord::Name => Some(FormulaParts::Atom(rest)),
    }
}
