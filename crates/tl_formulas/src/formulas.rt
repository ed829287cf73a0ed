// Formulas.
#![tactic(auto, using(crate::proofs::Rulesets::formulas, crate::proofs::FormulaParts::formula_parts))]

ghost use Rattle.std.specs.Prelude.{◌≡◌, [], false};
ghost use Rattle.tl_sexpr.specs.Tree.{no_form, more_forms, tree_of};
ghost use Rattle.tl_formulas.specs.Readers.{ReadsFormula, ReadsBoxed, ReadsFormulaCall, ReadsFormulaParts, ReadsFormulas, ReadsUnderWord};
ghost use Rattle.tl_formulas.specs.Shapes.{unary_word, binary_word, many_word, pair_trees, elements_of_parts, name_breaks_of, crowds};
ghost use Rattle.tl_rules.specs.Reads.{trees_in};

use crate::atoms::atom;
use crate::formula_checks::{check_formula_list, role_below};
use crate::formula_leaves::{
    comparison, constant, goal_formula, in_box, under_binary, under_many, under_unary,
};
use crate::formula_parts::formula_parts;
use crate::quantifiers::{over_steps, quantifier};
use crate::roles::FormulaRole;
use crate::scope::Scope;
use crate::shapes::{Binary, FormulaParts, Pair, Unary};
use crate::signature::NameSignature;
use crate::words::formula_word;
use tl_rules::{Call, FormFault, Rule, Vocabulary, breaks, call_in};
use tl_sexpr::Form;
use tl_syntax::{Formula, Formulas, Junction};

/// A formula.
#[cycle(formula)]
pub fn formula(
    vocabulary: &Vocabulary<'_, NameSignature<'_>>,
    scope: &Scope<'_>,
    role: FormulaRole,
    form: &Form,
) -> Result<Formula, FormFault>
    ensures { ReadsFormula vocabulary.now role scope.now (tree_of form.now) result }
{
    match form {
        Form::Sym(text, at) => constant(text.as_str(), *at),
        Form::Int(_, at) => Err(breaks(Rule::Shape, *at)),
        Form::List(_, at) => match call_in(form) {
            Some(call) => formula_call(vocabulary, scope, role, call),
            None => Err(breaks(Rule::Shape, *at)),
        },
    }
}

/// The formula of a list that begins with a word.
#[cycle(formula)]
fn formula_call(
    vocabulary: &Vocabulary<'_, NameSignature<'_>>,
    scope: &Scope<'_>,
    role: FormulaRole,
    call: Call<'_>,
) -> Result<Formula, FormFault>
    ensures { ReadsFormulaCall vocabulary.now role scope.now call.entry result }
{
    let Some(parts) = formula_parts(formula_word(call.word), call.rest) else {
        return Err(breaks(Rule::Shape, call.at));
    };
    check_formula_list(vocabulary.declared, scope, role, parts, call)?;
    let f = shaped_formula(vocabulary, scope, role_below(role), parts, call)?;
    Ok(f)
}

/// The formula of these parts of a list that breaks nothing itself.
#[cycle(formula)]
fn shaped_formula(
    vocabulary: &Vocabulary<'_, NameSignature<'_>>,
    scope: &Scope<'_>,
    role: FormulaRole,
    parts: FormulaParts<'_>,
    call: Call<'_>,
) -> Result<Formula, FormFault>
    requires elements { trees_in call.rest.now ≡ elements_of_parts parts }
    requires name { name_breaks_of vocabulary.now.declared.now parts call ≡ [] }
    requires room { crowds scope.now parts ≡ false }
    ensures { ReadsFormulaParts vocabulary.now role scope.now call.entry.word.now parts.entry
        result }
{
    match parts {
        FormulaParts::One(word, form) => unary(vocabulary, scope, role, word, form),
        FormulaParts::Two(word, pair) => binary(vocabulary, scope, role, word, pair),
        FormulaParts::Many(junction, forms) => many(vocabulary, scope, role, junction, forms),
        FormulaParts::Quantified(quantified) => quantifier(vocabulary, scope, role, quantified),
        FormulaParts::Counted(counted) => over_steps(vocabulary, scope, role, counted),
        FormulaParts::Goal(form) => goal_formula(vocabulary, scope, form),
        FormulaParts::Compare(cmp, pair) => comparison(vocabulary, scope, cmp, pair),
        FormulaParts::Atom(_) => atom(vocabulary, scope, call),
    }
}

/// A formula in a box.
#[cycle(formula)]
pub(crate) fn boxed(
    vocabulary: &Vocabulary<'_, NameSignature<'_>>,
    scope: &Scope<'_>,
    role: FormulaRole,
    form: &Form,
) -> Result<Box<Formula>, FormFault>
    ensures { ReadsBoxed vocabulary.now role scope.now (tree_of form.now) result }
{
    let f = formula(vocabulary, scope, role, form)?;
    let boxed = in_box(vocabulary.alloc, f)?;
    Ok(boxed)
}

/// A word before one formula.
#[cycle(formula)]
fn unary(
    vocabulary: &Vocabulary<'_, NameSignature<'_>>,
    scope: &Scope<'_>,
    role: FormulaRole,
    word: Unary,
    form: &Form,
) -> Result<Formula, FormFault>
    ensures { ReadsUnderWord vocabulary.now role scope.now (unary_word word)
        (more_forms (tree_of form.now) no_form) result }
{
    let f = boxed(vocabulary, scope, role, form)?;
    Ok(under_unary(word, f))
}

/// A word before two formulas.
#[cycle(formula)]
fn binary(
    vocabulary: &Vocabulary<'_, NameSignature<'_>>,
    scope: &Scope<'_>,
    role: FormulaRole,
    word: Binary,
    pair: Pair<'_>,
) -> Result<Formula, FormFault>
    ensures { ReadsUnderWord vocabulary.now role scope.now (binary_word word)
        (pair_trees pair.entry)
        result }
{
    let f = boxed(vocabulary, scope, role, pair.first)?;
    match formula(vocabulary, scope, role, pair.second) {
        Ok(g) => under_binary(vocabulary.alloc, word, f, g),
        Err(fault) => {
            drop(f);
            Err(fault)
        }
    }
}

/// All of the formulas, or any of them.
#[cycle(formula)]
fn many(
    vocabulary: &Vocabulary<'_, NameSignature<'_>>,
    scope: &Scope<'_>,
    role: FormulaRole,
    junction: Junction,
    forms: &[Form],
) -> Result<Formula, FormFault>
    ensures { ReadsUnderWord vocabulary.now role scope.now (many_word junction) (trees_in forms.now)
        result }
{
    let parts = formulas(vocabulary, scope, role, forms)?;
    Ok(under_many(junction, parts))
}

/// Formulas.
#[cycle(formula)]
fn formulas(
    vocabulary: &Vocabulary<'_, NameSignature<'_>>,
    scope: &Scope<'_>,
    role: FormulaRole,
    forms: &[Form],
) -> Result<Formulas, FormFault>
    ensures { ReadsFormulas vocabulary.now role scope.now (trees_in forms.now) result }
{
    let mut formulas = Formulas::new(vocabulary.alloc);
    for form in forms {
        let one = formula(vocabulary, scope, role, form)?;
        formulas.push(one)?;
    }
    Ok(formulas)
}
