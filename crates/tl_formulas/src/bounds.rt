// Bounds.
ghost use Rattle.tl_sexpr.specs.Tree.{tree_of};
ghost use Rattle.tl_syntax.specs.declared.value.Cmp.TheVariants as cmp;
ghost use Rattle.tl_formulas.specs.declared.words.FormulaWord.TheVariants as word;
ghost use Rattle.tl_formulas.specs.Readers.{ReadsFlat, ReadsPlaceBound, ReadsBoundCall, ReadsBound, ReadsBounds};
ghost use Rattle.tl_formulas.specs.Words.{formula_word};
ghost use Rattle.tl_rules.specs.Reads.{trees_in};

use crate::arguments::{argument, arguments, leaf_in};
use crate::goals::{bound_of, goal};
use crate::scope::Scope;
use crate::signature::{NameSignature, Table};
use crate::terms::called;
use crate::words::{FormulaWord, formula_word};
use tl_rules::parts::{any_list, offset, one, two};
use tl_rules::{Call, FormFault, Rule, Vocabulary, breaks, call_in};
use tl_sexpr::Form;
use tl_syntax::{Args, Bound, Bounds, Cmp};

/// The place of a name in a table and its arguments, none of which is a list.
#[tactic(auto, using(crate::proofs::Rulesets::composed))]
fn flat(
    vocabulary: &Vocabulary<'_, NameSignature<'_>>,
    scope: &Scope<'_>,
    table: &Table<'_>,
    call: Call<'_>,
) -> Result<(u32, Args), FormFault>
    ensures { ReadsFlat vocabulary.now scope.now table.now call.entry result }
{
    if any_list(call.rest) {
        return Err(breaks(Rule::Shape, call.at));
    }
    let place = called(table, call.word, call.rest.len(), call.at)?;
    let args = arguments(vocabulary, scope, call.rest)?;
    Ok((place, args))
}

/// A bound `(= X a)`, by X and a and its offset.
#[tactic(auto, using(crate::proofs::Called::bounds))]
fn place_bound(
    vocabulary: &Vocabulary<'_, NameSignature<'_>>,
    scope: &Scope<'_>,
    place: &Form,
    value: &Form,
    at: u32,
) -> Result<Bound, FormFault>
    ensures { ReadsPlaceBound vocabulary.now scope.now (tree_of place.now) (tree_of value.now) at
        result }
{
    let Some(call) = call_in(place) else {
        return Err(breaks(Rule::Shape, at));
    };
    let Some(value) = leaf_in(value) else {
        return Err(breaks(Rule::Shape, at));
    };
    let (function, args) = flat(vocabulary, scope, &vocabulary.declared.functions, call)?;
    let value = argument(vocabulary, scope, value)?;
    Ok(Bound::Place(function, args, value))
}

/// A bound `(= X a)`.
#[tactic(auto, using(crate::proofs::Counts::equality_count))]
fn equality(
    vocabulary: &Vocabulary<'_, NameSignature<'_>>,
    scope: &Scope<'_>,
    call: Call<'_>,
) -> Result<Bound, FormFault>
    ensures { ReadsBoundCall vocabulary.now scope.now (word.Compare cmp.Eq) call.entry result }
{
    match two(call.rest) {
        Some((place, value)) => place_bound(vocabulary, scope, place, value, call.at),
        None => Err(breaks(Rule::Shape, call.at)),
    }
}

/// A bound `(goal A)`.
#[tactic(auto, using(crate::proofs::Counts::goal_count))]
fn goal_bound(
    vocabulary: &Vocabulary<'_, NameSignature<'_>>,
    scope: &Scope<'_>,
    call: Call<'_>,
) -> Result<Bound, FormFault>
    ensures { ReadsBoundCall vocabulary.now scope.now word.Goal call.entry result }
{
    let Some(form) = one(call.rest) else {
        return Err(breaks(Rule::Shape, call.at));
    };
    let goal = goal(vocabulary, scope, form)?;
    Ok(bound_of(goal))
}

/// A bound `(p a*)`.
fn fact_bound(
    vocabulary: &Vocabulary<'_, NameSignature<'_>>,
    scope: &Scope<'_>,
    call: Call<'_>,
) -> Result<Bound, FormFault>
    ensures { ReadsBoundCall vocabulary.now scope.now word.Name call.entry result }
{
    let (predicate, args) = flat(vocabulary, scope, &vocabulary.declared.predicates, call)?;
    Ok(Bound::Fact(predicate, args))
}

/// The bound of a list that begins with a word.
fn bound_call(
    vocabulary: &Vocabulary<'_, NameSignature<'_>>,
    scope: &Scope<'_>,
    call: Call<'_>,
) -> Result<Bound, FormFault>
    ensures { ReadsBoundCall vocabulary.now scope.now (formula_word call.entry.word.now)
        call.entry result }
{
    match formula_word(call.word) {
        FormulaWord::Compare(Cmp::Eq) => equality(vocabulary, scope, call),
        FormulaWord::Goal => goal_bound(vocabulary, scope, call),
        _ => fact_bound(vocabulary, scope, call),
    }
}

/// A bound.
#[tactic(auto, using(crate::proofs::Called::bounds))]
pub(crate) fn bound(
    vocabulary: &Vocabulary<'_, NameSignature<'_>>,
    scope: &Scope<'_>,
    form: &Form,
) -> Result<Bound, FormFault>
    ensures { ReadsBound vocabulary.now scope.now (tree_of form.now) result }
{
    match call_in(form) {
        Some(call) => bound_call(vocabulary, scope, call),
        None => Err(breaks(Rule::Shape, offset(form))),
    }
}

/// Bounds.
#[tactic(auto, using(crate::proofs::Rulesets::composed))]
pub fn bounds(
    vocabulary: &Vocabulary<'_, NameSignature<'_>>,
    scope: &Scope<'_>,
    forms: &[Form],
) -> Result<Bounds, FormFault>
    ensures { ReadsBounds vocabulary.now scope.now (trees_in forms.now) result }
{
    let mut bounds = Bounds::new(vocabulary.alloc);
    for form in forms {
        bounds.push(bound(vocabulary, scope, form)?)?;
    }
    Ok(bounds)
}
