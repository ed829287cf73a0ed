// The labels of formulas that read no state.
ghost use Rattle.std.specs.Prelude.{◌≡◌, ◌≤◌, ◌^◌, OnOk, length, IsTrue};
ghost use Rattle.tl_check.specs.AlongStates.{FitsAlong, AreLabelsIn, AreLabelsAlong};
ghost use Rattle.tl_check.specs.FixedTerms.{IsFixed};
ghost use Rattle.tl_check.specs.Spans.{IsWithin};
ghost use Rattle.tl_check.specs.StatesAlong.{states_along, KeepsFew};
ghost use Rattle.tl_check.specs.Steady.{IsSteady};
ghost use Rattle.tl_syntax.specs.StateFormulas.{IsState};
ghost use Rattle.tl_syntax.specs.TreeOfFormula.{tree_of_formula};
ghost use Rattle.tl_syntax.specs.TreeOfTerm.{tree_of_term};

use crate::CheckFault;
use crate::along::Along;
use crate::labels::Labels;
use crate::span::Span;
use crate::unlabelled::Unlabelled;
use tl_eval::{Env, state};
use tl_syntax::{Formula, Term};
use tl_world::World;

/// Whether the term has the same value in every state, or none in any: no function stands in it. It
/// takes no memory.
pub(crate) fn is_fixed(term: &Term) -> bool
    ensures { IsTrue result → IsFixed (tree_of_term term.now) }
{
    match term {
        Term::Var(_) => true,
        Term::Val(_) => true,
        Term::Place(_, _) => false,
        Term::Arith(_, left, right, _) => is_fixed(left) && is_fixed(right),
    }
}

/// Whether the formula reads no state: it speaks of the goal list or of values alone. It takes no
/// memory.
pub(crate) fn is_steady(f: &Formula) -> bool
    ensures { IsTrue result → IsSteady (tree_of_formula f.now) }
{
    match f {
        Formula::True => true,
        Formula::False => true,
        Formula::Atom(_, _) => false,
        Formula::Defined(_, _) => false,
        Formula::Compare(_, x, y) => is_fixed(x) && is_fixed(y),
        Formula::GoalFact(_, _) => true,
        Formula::GoalPlace(_, _, _) => true,
        Formula::GoalNot(_, _) => true,
        Formula::Not(_) => false,
        Formula::And(_) => false,
        Formula::Or(_) => false,
        Formula::ForAll(_, _, _) => false,
        Formula::Exists(_, _, _) => false,
        Formula::Next(_) => false,
        Formula::Always(_) => false,
        Formula::Eventually(_) => false,
        Formula::Until(_, _) => false,
        Formula::Within(_, _) => false,
        Formula::During(_, _) => false,
    }
}

/// The labels of a formula that reads no state. It is evaluated once, in the first of these states
/// in the span.
pub(crate) fn steady_labels(
    f: &Formula,
    along: &Along,
    worlds: &[World],
    span: Span,
    env: &mut Env,
) -> Result<Labels, CheckFault>
    requires span { IsWithin span (length worlds.now) }
    requires few { length worlds.now ≤ 2 ^ 32 }
    requires fits { FitsAlong along.now (tree_of_formula f.now) }
    requires state { IsState (tree_of_formula f.now) }
    requires steady { IsSteady (tree_of_formula f.now) }
    ensures labels { AreLabelsIn along.now worlds.now span env.old (tree_of_formula f.now) result }
    ensures frame { OnOk result (env.new ≡ env.old) }
{
    if span.to <= span.from {
        return Ok(Labels::new(along.alloc));
    }
    let first = span.from;
    match state(along.task, &worlds[first], env, f) {
        Ok(truth) => {
            let labels = Labels::all(along.alloc, span.to - span.from, truth)?;
            Ok(labels)
        }
        Err(note) => Err(CheckFault::Range {
            after: first as u32,
            note,
        }),
    }
}

/// The labels of a formula that reads no state, where the states are not kept. It is evaluated
/// once, in the first world.
pub(crate) fn labels_unread(
    f: &Formula,
    along: &Along,
    span: Span,
    env: &mut Env,
) -> Result<Labels, Unlabelled>
    requires few { KeepsFew along.now }
    requires span { IsWithin span (length (states_along along.now)) }
    requires fits { FitsAlong along.now (tree_of_formula f.now) }
    requires state { IsState (tree_of_formula f.now) }
    ensures labels { AreLabelsAlong along.now span env.old (tree_of_formula f.now) result }
    ensures frame { OnOk result (env.new ≡ env.old) }
{
    if !is_steady(f) {
        return Err(Unlabelled::NotKept);
    }
    match state(along.task, &along.task.first, env, f) {
        Ok(truth) => {
            let labels = Labels::all(along.alloc, span.to - span.from, truth)?;
            Ok(labels)
        }
        Err(_) => Err(Unlabelled::NotKept),
    }
}
