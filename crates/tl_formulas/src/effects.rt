// Effects.
#![tactic(auto, using(crate::proofs::Rulesets::effects))]

ghost use Rattle.std.specs.Prelude.{◌≡◌, false};
ghost use Rattle.tl_sexpr.specs.Tree.{tree_of};
ghost use Rattle.tl_formulas.specs.Effects.{is_crowded_by_effect};
ghost use Rattle.tl_formulas.specs.Readers.{ReadsTarget, ReadsEffect, ReadsEffectCall, ReadsEffectParts, ReadsEffects};
ghost use Rattle.tl_formulas.specs.Shapes.{variables_tree, word_of_change, elements_of_change};
ghost use Rattle.tl_formulas.specs.Variables.{is_crowded};
ghost use Rattle.tl_formulas.specs.declared.shapes.EffectParts.TheVariants as change;
ghost use Rattle.tl_rules.specs.Reads.{trees_in};

use crate::bindings::{BoundVariables, bound_variables, is_crowded};
use crate::effect_parts::effect_parts;
use crate::formulas::formula;
use crate::roles::FormulaRole;
use crate::scope::Scope;
use crate::shapes::{Binding, EffectParts};
use crate::signature::{NameSignature, Table};
use crate::terms::{called, term, terms};
use crate::words::effect_word;
use tl_rules::parts::offset;
use tl_rules::{Call, FormFault, Rule, Vocabulary, breaks, call_in};
use tl_sexpr::Form;
use tl_syntax::{Effect, Effects, Terms};

/// The place in a table of a list's first word, and the terms after the word.
fn target(
    vocabulary: &Vocabulary<'_, NameSignature<'_>>,
    scope: &Scope<'_>,
    table: &Table<'_>,
    call: Call<'_>,
) -> Result<(u32, Terms), FormFault>
    ensures { ReadsTarget vocabulary.now scope.now table.now call.entry result }
{
    let place = called(table, call.word, call.rest.len(), call.at)?;
    let terms = terms(vocabulary, scope, call.rest)?;
    Ok((place, terms))
}

/// An effect `(add A)`, by the fact.
fn add(
    vocabulary: &Vocabulary<'_, NameSignature<'_>>,
    scope: &Scope<'_>,
    fact: Call<'_>,
) -> Result<Effect, FormFault>
    ensures { ReadsEffectParts vocabulary.now scope.now (change.Add fact.entry) result }
{
    let (predicate, terms) = target(vocabulary, scope, &vocabulary.declared.predicates, fact)?;
    Ok(Effect::Add(predicate, terms))
}

/// An effect `(del A)`, by the fact.
fn del(
    vocabulary: &Vocabulary<'_, NameSignature<'_>>,
    scope: &Scope<'_>,
    fact: Call<'_>,
) -> Result<Effect, FormFault>
    ensures { ReadsEffectParts vocabulary.now scope.now (change.Del fact.entry) result }
{
    let (predicate, terms) = target(vocabulary, scope, &vocabulary.declared.predicates, fact)?;
    Ok(Effect::Del(predicate, terms))
}

/// An effect `(set X T)`, by the place and its new value.
fn set(
    vocabulary: &Vocabulary<'_, NameSignature<'_>>,
    scope: &Scope<'_>,
    place: Call<'_>,
    value: &Form,
) -> Result<Effect, FormFault>
    ensures { ReadsEffectParts vocabulary.now scope.now (change.Set place.entry value.entry)
        result }
{
    let (function, args) = target(vocabulary, scope, &vocabulary.declared.functions, place)?;
    let value = term(vocabulary, scope, value)?;
    Ok(Effect::Assign(function, args, value))
}

/// An effect.
#[cycle(effect)]
fn effect(
    vocabulary: &Vocabulary<'_, NameSignature<'_>>,
    scope: &Scope<'_>,
    form: &Form,
) -> Result<Effect, FormFault>
    ensures { ReadsEffect vocabulary.now scope.now (tree_of form.now) result }
{
    match call_in(form) {
        Some(call) => effect_call(vocabulary, scope, call),
        None => Err(breaks(Rule::Shape, offset(form))),
    }
}

/// The effect of a list that begins with a word.
#[cycle(effect)]
fn effect_call(
    vocabulary: &Vocabulary<'_, NameSignature<'_>>,
    scope: &Scope<'_>,
    call: Call<'_>,
) -> Result<Effect, FormFault>
    ensures { ReadsEffectCall vocabulary.now scope.now call.entry result }
{
    let Some(parts) = effect_parts(effect_word(call.word), call.rest) else {
        return Err(breaks(Rule::Shape, call.at));
    };
    if is_crowded_by(scope, parts) {
        return Err(breaks(Rule::Limit, call.at));
    }
    let e = shaped_effect(vocabulary, scope, parts)?;
    Ok(e)
}

/// Whether with the variables of an `each` more than 32 are in scope.
fn is_crowded_by(scope: &Scope<'_>, parts: EffectParts<'_>) -> bool
    ensures { result ≡ is_crowded_by_effect scope.now (word_of_change parts.entry)
        (elements_of_change parts.entry) }
{
    match parts {
        EffectParts::Each(binding, _) => is_crowded(scope, binding.list),
        _ => false,
    }
}

/// The effect of these parts of a list that breaks nothing itself.
#[cycle(effect)]
fn shaped_effect(
    vocabulary: &Vocabulary<'_, NameSignature<'_>>,
    scope: &Scope<'_>,
    parts: EffectParts<'_>,
) -> Result<Effect, FormFault>
    requires { is_crowded_by_effect scope.now (word_of_change parts) (elements_of_change parts)
        ≡ false }
    ensures { ReadsEffectParts vocabulary.now scope.now parts.entry result }
{
    match parts {
        EffectParts::Add(fact) => add(vocabulary, scope, fact),
        EffectParts::Del(fact) => del(vocabulary, scope, fact),
        EffectParts::Set(place, value) => set(vocabulary, scope, place, value),
        EffectParts::When(condition, forms) => when(vocabulary, scope, condition, forms),
        EffectParts::Each(binding, forms) => each(vocabulary, scope, binding, forms),
    }
}

/// An effect `(when F E*)`, by its condition and its effects.
#[cycle(effect)]
fn when(
    vocabulary: &Vocabulary<'_, NameSignature<'_>>,
    scope: &Scope<'_>,
    condition: &Form,
    forms: &[Form],
) -> Result<Effect, FormFault>
    ensures { ReadsEffectParts vocabulary.now scope.now (change.When condition.entry forms.entry)
        result }
{
    let condition = formula(vocabulary, scope, FormulaRole::State, condition)?;
    match effects(vocabulary, scope, forms) {
        Ok(effects) => Ok(Effect::When(condition, effects)),
        Err(fault) => {
            drop(condition);
            Err(fault)
        }
    }
}

/// An effect `(each (V*) B E*)`, by its variables, their bound and its effects.
#[cycle(effect)]
fn each(
    vocabulary: &Vocabulary<'_, NameSignature<'_>>,
    scope: &Scope<'_>,
    binding: Binding<'_>,
    forms: &[Form],
) -> Result<Effect, FormFault>
    requires room { is_crowded scope.now (variables_tree binding.list) ≡ false }
    ensures { ReadsEffectParts vocabulary.now scope.now (change.Each binding.entry forms.entry)
        result }
{
    let found = bound_variables(vocabulary, &*scope, binding)?;
    let BoundVariables { inner, vars, bound } = found;
    match effects(vocabulary, &inner, forms) {
        Ok(effects) => Ok(Effect::Each(vars, bound, effects)),
        Err(fault) => {
            drop(vars);
            drop(bound);
            Err(fault)
        }
    }
}

/// Effects.
#[cycle(effect)]
pub fn effects(
    vocabulary: &Vocabulary<'_, NameSignature<'_>>,
    scope: &Scope<'_>,
    forms: &[Form],
) -> Result<Effects, FormFault>
    ensures { ReadsEffects vocabulary.now scope.now (trees_in forms.now) result }
{
    let mut effects = Effects::new(vocabulary.alloc);
    for form in forms {
        let one = effect(vocabulary, scope, form)?;
        effects.push(one)?;
    }
    Ok(effects)
}
