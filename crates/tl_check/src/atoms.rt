// The labels of atoms and of bounds, by when their facts hold.
ghost use Rattle.std.specs.Prelude.{◌≡◌, length, IfOk, IfSome, IfNone};
ghost use Rattle.tl_check.specs.AlongStates.{BoundFitsAlong, GuidesAlong, bound_along};
ghost use Rattle.tl_check.specs.AlongStates.{GivesFactLabels, GivesAtomLabels, GivesBoundLabels};
ghost use Rattle.tl_check.specs.Facts.{IsAlong, IsOverGoal};
ghost use Rattle.tl_check.specs.FixedTerms.{HasFixedValue, HaveFixedValues};
ghost use Rattle.tl_check.specs.Spans.{IsWithin};
ghost use Rattle.tl_check.specs.StatesAlong.{states_along, KeepsFew};
ghost use Rattle.tl_eval.specs.Frames.{assignment_in};
ghost use Rattle.tl_terms.specs.Bounds.{arg_value, arg_values};

use crate::along::Along;
use crate::labels::Labels;
use crate::line::line_labels;
use crate::span::Span;
use std::alloc::Global;
use tl_eval::{Env, bound_holds};
use tl_syntax::{Arg, Args, Bound, Fact, NoMemory, Term, Terms, Value, Values};
use tl_world::World;

/// The value of an argument under the frame's values, where it has one. It takes no memory.
fn value_of_arg(env: &Env, arg: Arg) -> Option<Value>
    ensures { result ≡ arg_value (assignment_in env.now) arg }
{
    match arg {
        Arg::Var(var) => {
            let values = env.kept(&[var]);
            values[0]
        }
        Arg::Val(value) => Some(value),
    }
}

/// The value of a term that is a variable with a value, or a value. It takes no memory.
pub(crate) fn plain_value(env: &Env, term: &Term) -> Option<Value>
    ensures { IfSome result (HasFixedValue env.now term.now) }
{
    match term {
        Term::Var(var) => value_of_arg(env, Arg::Var(*var)),
        Term::Val(value) => Some(*value),
        Term::Place(_, _) => None,
        Term::Arith(_, _, _, _) => None,
    }
}

/// The values of arguments, where all have one. It fails for want of memory alone.
fn row_of_args(alloc: Global, env: &Env, args: &[Arg]) -> Result<Option<Values>, NoMemory>
    ensures { IfOk result (λ row. row ≡ arg_values (assignment_in env.now) args.now) }
{
    let mut row = Values::new(alloc);
    for arg in args.iter() {
        match value_of_arg(env, *arg) {
            Some(value) => row.push(value)?,
            None => return Ok(None),
        }
    }
    Ok(Some(row))
}

/// The values of terms, where each is a variable with a value, or a value. It fails for want of
/// memory alone.
fn row_of_terms(alloc: Global, env: &Env, terms: &Terms) -> Result<Option<Values>, NoMemory>
    ensures { IfOk result (λ row. IfSome row (HaveFixedValues env.now terms.now)) }
{
    let mut row = Values::new(alloc);
    for term in terms.as_slice().iter() {
        match plain_value(env, term) {
            Some(value) => row.push(value)?,
            None => return Ok(None),
        }
    }
    Ok(Some(row))
}

/// The labels of a fact, where it is known when the facts of its predicate hold. It fails for want
/// of memory alone.
fn fact_labels(
    pred: u32,
    row: Values,
    along: &Along,
    span: Span,
) -> Result<Option<Labels>, NoMemory>
    requires along { IsAlong along.now }
    requires span { IsWithin span (length (states_along along.now)) }
    ensures { GivesFactLabels along.now span (pred, row) result }
{
    match along.history(pred) {
        Some(history) => {
            let fact = Fact { pred, args: row };
            let labels = line_labels(along.alloc, history.line(&fact), span)?;
            Ok(Some(labels))
        }
        None => Ok(None),
    }
}

/// The labels of an atom, where its terms are variables and values, and it is known when the facts
/// of its predicate hold. It fails for want of memory alone.
pub(crate) fn atom_labels(
    pred: u32,
    terms: &Terms,
    along: &Along,
    span: Span,
    env: &Env,
) -> Result<Option<Labels>, NoMemory>
    requires along { IsAlong along.now }
    requires span { IsWithin span (length (states_along along.now)) }
    ensures { GivesAtomLabels along.now span env.now pred terms.now result }
{
    match row_of_terms(along.alloc, env, terms)? {
        Some(row) => fact_labels(pred, row, along, span),
        None => Ok(None),
    }
}

/// Whether the bound is true in each state of the span. It fails for want of memory alone.
fn bound_read(
    bound: &Bound,
    along: &Along,
    worlds: &[World],
    span: Span,
    env: &Env,
) -> Result<Labels, NoMemory>
    requires worlds { worlds.now ≡ states_along along.now }
    requires span { IsWithin span (length (states_along along.now)) }
    requires fits { BoundFitsAlong along.now bound.now }
    ensures { IfOk result (λ labels. labels ≡ bound_along along.now span env.now bound.now) }
{
    let mut labels = Labels::new(along.alloc);
    for i in span.from..span.to {
        labels.push(bound_holds(along.task, &worlds[i], env, bound))?;
    }
    Ok(labels)
}

/// The truth of the bound in each state of the span, where the states are kept. It fails for want
/// of memory alone.
fn bound_in_states(
    bound: &Bound,
    along: &Along,
    span: Span,
    env: &Env,
) -> Result<Option<Labels>, NoMemory>
    requires along { IsAlong along.now }
    requires span { IsWithin span (length (states_along along.now)) }
    requires fits { BoundFitsAlong along.now bound.now }
    ensures labels { GivesBoundLabels along.now span env.now bound.now result }
    ensures few { IfOk result (λ found. IfNone found (KeepsFew along.now)) }
{
    match along.states() {
        Some(worlds) => {
            let labels = bound_read(bound, along, worlds, span, env)?;
            Ok(Some(labels))
        }
        None => Ok(None),
    }
}

/// The label of a bound over the goal list, which is the same at each position of the span. It
/// fails for want of memory alone.
fn goal_bound_labels(
    bound: &Bound,
    along: &Along,
    span: Span,
    env: &Env,
) -> Result<Option<Labels>, NoMemory>
    requires span { IsWithin span (length (states_along along.now)) }
    requires fits { BoundFitsAlong along.now bound.now }
    requires goal { IsOverGoal bound.now }
    ensures labels { GivesBoundLabels along.now span env.now bound.now result }
    ensures few { IfOk result (λ found. IfNone found (KeepsFew along.now)) }
{
    let truth = bound_holds(along.task, &along.task.first, env, bound);
    let labels = Labels::all(along.alloc, span.to - span.from, truth)?;
    Ok(Some(labels))
}

/// The labels of a bound over facts of the states, where its arguments have values, and it is known
/// when the facts of its predicate hold. It fails for want of memory alone.
fn fact_bound_labels(
    pred: u32,
    args: &Args,
    along: &Along,
    span: Span,
    env: &Env,
) -> Result<Option<Labels>, NoMemory>
    requires along { IsAlong along.now }
    requires span { IsWithin span (length (states_along along.now)) }
    ensures { GivesBoundLabels along.now span env.now (Bound.Fact pred args.now) result }
{
    match row_of_args(along.alloc, env, args.as_slice())? {
        Some(row) => fact_labels(pred, row, along, span),
        None => Ok(None),
    }
}

/// The truth of a bound at each position of the span, where it is known or the states are kept. It
/// fails for want of memory alone.
pub(crate) fn bound_labels(
    bound: &Bound,
    along: &Along,
    span: Span,
    env: &Env,
) -> Result<Option<Labels>, NoMemory>
    requires along { IsAlong along.now }
    requires span { IsWithin span (length (states_along along.now)) }
    requires fits { BoundFitsAlong along.now bound.now }
    ensures labels { GivesBoundLabels along.now span env.now bound.now result }
    ensures few { IfOk result (λ found. IfNone found (KeepsFew along.now)) }
{
    match bound {
        Bound::Fact(pred, args) => match fact_bound_labels(*pred, args, along, span, env)? {
            Some(labels) => Ok(Some(labels)),
            None => bound_in_states(bound, along, span, env),
        },
        Bound::Place(_, _, _) => bound_in_states(bound, along, span, env),
        Bound::GoalFact(_, _) => goal_bound_labels(bound, along, span, env),
        Bound::GoalPlace(_, _, _) => goal_bound_labels(bound, along, span, env),
        Bound::GoalNot(_, _) => goal_bound_labels(bound, along, span, env),
    }
}

/// A world in which every tuple makes the bound true that makes it true in one of the states, where
/// one is known. It takes no memory.
pub(crate) fn guide_of<'a>(bound: &Bound, along: &'a Along) -> Option<&'a World>
    requires { IsAlong along.now }
    ensures { IfSome result (λ w. GuidesAlong along.now bound.now w.now) }
{
    match bound {
        Bound::Fact(pred, _) => match along.history(*pred) {
            Some(history) => Some(&history.ever),
            None => None,
        },
        Bound::Place(_, _, _) => None,
        Bound::GoalFact(_, _) => Some(&along.task.first),
        Bound::GoalPlace(_, _, _) => Some(&along.task.first),
        Bound::GoalNot(_, _) => Some(&along.task.first),
    }
}
