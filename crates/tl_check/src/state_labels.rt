// The labels of formulas that are read in each state.
ghost use Rattle.std.specs.Prelude.{◌≡◌, ◌≤◌, ◌^◌, OnOk, length};
ghost use Rattle.tl_check.specs.AlongStates.{FitsAlong, AreLabelsIn, AreLabelsAlong};
ghost use Rattle.tl_check.specs.Facts.{IsAlong};
ghost use Rattle.tl_check.specs.Spans.{IsWithin};
ghost use Rattle.tl_check.specs.StatesAlong.{states_along};
ghost use Rattle.tl_syntax.specs.StateFormulas.{IsState};
ghost use Rattle.tl_syntax.specs.TreeOfFormula.{tree_of_formula};

use crate::CheckFault;
use crate::along::Along;
use crate::labels::Labels;
use crate::span::Span;
use crate::steady::{is_steady, labels_unread, steady_labels};
use crate::unlabelled::Unlabelled;
use tl_eval::{Env, state};
use tl_syntax::Formula;
use tl_world::World;

/// The truth of a formula without temporal words in each of these states in the span. One that
/// reads no state is evaluated once.
fn labels_in(
    f: &Formula,
    along: &Along,
    worlds: &[World],
    span: Span,
    env: &mut Env,
) -> Result<Labels, CheckFault>
    requires span { IsWithin span (length worlds.now) }
    requires few { length worlds.now ≤ 2 ^ 32 }
    requires fits { FitsAlong along.now (tree_of_formula f.now) }
    requires state { IsState (tree_of_formula f.now) }
    ensures labels { AreLabelsIn along.now worlds.now span env.old (tree_of_formula f.now) result }
    ensures frame { OnOk result (env.new ≡ env.old) }
{
    if is_steady(f) {
        return steady_labels(f, along, worlds, span, env);
    }
    let mut labels = Labels::new(along.alloc);
    for i in span.from..span.to {
        match state(along.task, &worlds[i], env, f) {
            Ok(truth) => labels.push(truth)?,
            Err(note) => {
                return Err(CheckFault::Range {
                    after: i as u32,
                    note,
                });
            }
        }
    }
    Ok(labels)
}

/// The truth of a formula without temporal words at each position of the span, where the states are
/// kept or it reads none.
pub(crate) fn state_labels(
    f: &Formula,
    along: &Along,
    span: Span,
    env: &mut Env,
) -> Result<Labels, Unlabelled>
    requires along { IsAlong along.now }
    requires span { IsWithin span (length (states_along along.now)) }
    requires fits { FitsAlong along.now (tree_of_formula f.now) }
    requires state { IsState (tree_of_formula f.now) }
    ensures labels { AreLabelsAlong along.now span env.old (tree_of_formula f.now) result }
    ensures frame { OnOk result (env.new ≡ env.old) }
{
    match along.states() {
        Some(worlds) => {
            let labels = labels_in(f, along, worlds, span, env)?;
            Ok(labels)
        }
        None => labels_unread(f, along, span, env),
    }
}
