// Facts, equalities and negated facts, each by itself.
ghost use Rattle.std.specs.Prelude.{ℕ, List};
ghost use Rattle.tl_syntax.specs.declared.fact.Fact.{Fact};
ghost use Rattle.tl_syntax.specs.declared.place_value.PlaceValue.{PlaceValue};
ghost use Rattle.tl_syntax.specs.declared.value.Value.{Value};
ghost use Rattle.tl_rules.specs.Reads.{Reads, trees_in};
ghost use Rattle.tl_rules.specs.Values.{values_meant};
ghost use Rattle.tl_rules.specs.Calls.{call_tree};
ghost use Rattle.tl_problem.specs.Declarations.{position_meant};
ghost use Rattle.tl_problem.specs.Facts.{ground_breaks, fact_meant, place_value_breaks, place_value_meant, negation_breaks, negation_meant};

use crate::declarations::called;
use crate::values::{value, values};
use std::alloc::Global;
use tl_rules::parts::{one, two};
use tl_rules::{Call, FormFault, Rule, breaks, call_in};
use tl_syntax::{Declared, Fact, Names, PlaceValue, Values};

/// The position of what a list calls, and the values after it.
#[tactic(auto, using(crate::proofs::Rulesets::composed))]
fn ground(
    alloc: Global,
    names: &Names,
    declared: &[Declared],
    call: Call<'_>,
) -> Result<(u32, Values), FormFault>
    ensures { Reads (λ (x : ℕ × List Value). x) result
        (ground_breaks names.now declared.now (call_tree call.entry)) (
          position_meant names.now declared.now call.entry.word.now,
          values_meant names.now
              (trees_in call.entry.rest.now),
        ) }
{
    let position = called(names, declared, call)?;
    let values = values(alloc, names, call.rest)?;
    Ok((position, values))
}

/// A fact `(p c*)`.
pub(crate) fn fact(
    alloc: Global,
    names: &Names,
    predicates: &[Declared],
    call: Call<'_>,
) -> Result<Fact, FormFault>
    ensures { Reads (λ (x : Fact). x) result (ground_breaks names.now predicates.now
        (call_tree call.entry))
        (fact_meant names.now predicates.now (call_tree call.entry)) }
{
    let (pred, args) = ground(alloc, names, predicates, call)?;
    Ok(Fact { pred, args })
}

/// A place with its value, of an equality `(= X c)`.
#[tactic(auto, using(crate::proofs::Rulesets::equalities))]
pub(crate) fn equality(
    alloc: Global,
    names: &Names,
    functions: &[Declared],
    call: Call<'_>,
) -> Result<PlaceValue, FormFault>
    ensures { Reads (λ (x : PlaceValue). x) result
        (place_value_breaks names.now functions.now (trees_in call.entry.rest.now) call.entry.at)
        (place_value_meant names.now functions.now (trees_in call.entry.rest.now)) }
{
    let Some((place, form)) = two(call.rest) else {
        return Err(breaks(Rule::Shape, call.at));
    };
    let Some(place) = call_in(place) else {
        return Err(breaks(Rule::Shape, call.at));
    };
    let (fun, args) = ground(alloc, names, functions, place)?;
    let value = value(names, form)?;
    Ok(PlaceValue { fun, args, value })
}

/// The fact X of `(not X)`.
#[tactic(auto, using(crate::proofs::Counts::negation_count))]
pub(crate) fn negation(
    alloc: Global,
    names: &Names,
    predicates: &[Declared],
    call: Call<'_>,
) -> Result<Fact, FormFault>
    ensures { Reads (λ (x : Fact). x) result
        (negation_breaks names.now predicates.now (trees_in call.entry.rest.now) call.entry.at)
        (negation_meant names.now predicates.now (trees_in call.entry.rest.now)) }
{
    let Some(form) = one(call.rest) else {
        return Err(breaks(Rule::Shape, call.at));
    };
    let Some(negated) = call_in(form) else {
        return Err(breaks(Rule::Shape, call.at));
    };
    fact(alloc, names, predicates, negated)
}
