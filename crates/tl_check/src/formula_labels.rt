// The labels of formulas.
ghost use Rattle.std.specs.Prelude.{◌≡◌, ◌+◌, length, OnOk, IsTrue};
ghost use Rattle.tl_check.specs.AlongStates.{FitsAlong, IsInstanceAlong};
ghost use Rattle.tl_check.specs.AlongStates.{AreLabelsAlong, JoinsPartAlong, JoinsAlong};
ghost use Rattle.tl_check.specs.AlongStates.{AreNegatedLabels, AreNextLabels, AreLaterLabels};
ghost use Rattle.tl_check.specs.AlongStates.{AreUntilLabels, AreJoinedLabels};
ghost use Rattle.tl_check.specs.AlongStates.{AreQuantifiedLabels};
ghost use Rattle.tl_check.specs.Facts.{IsAlong};
ghost use Rattle.tl_check.specs.Later.{later_tree};
ghost use Rattle.tl_check.specs.PartTrees.{until_tree, quantified_tree};
ghost use Rattle.tl_check.specs.Spans.{IsWithin};
ghost use Rattle.tl_check.specs.StatesAlong.{states_along};
ghost use Rattle.tl_syntax.specs.Junctions.{joined};
ghost use Rattle.tl_syntax.specs.StateFormulas.{IsState};
ghost use Rattle.tl_syntax.specs.TreeOfFormula.{tree_of_formula, tree_of_formulas};
ghost use Rattle.tl_syntax.specs.Trees.{negation, next};

use crate::along::Along;
use crate::atoms::atom_labels;
use crate::binder::Binder;
use crate::instance::Instance;
use crate::labels::Labels;
use crate::later::Later;
use crate::part::Part;
use crate::plain::{Compared, has_parts, is_plain};
use crate::span::Span;
use crate::state_labels::state_labels;
use crate::temporal::is_state;
use crate::tuples::tuples_of;
use crate::unlabelled::Unlabelled;
use tl_eval::Env;
use tl_syntax::{Formula, Formulas, Junction};

/// Whether the formula is read as a whole in each state, so that a decided part of it ends the
/// reading: it has parts and no temporal word, and functions, definitions or operations stand in
/// it, those on variables and values only where states are kept. It takes no memory.
fn is_read_whole(f: &Formula, along: &Along) -> bool
    ensures { IsTrue result → IsState (tree_of_formula f.now) }
{
    let compared = if along.kept.is_empty() {
        Compared::Fixed
    } else {
        Compared::Plain
    };
    has_parts(f) && !is_plain(f, compared) && is_state(f)
}

/// The truth of a formula at each position of the span, under the frame's values, where the states
/// from one of them on are repeated for ever. It comes from the labels of its parts where they
/// count, from when facts hold, or from each state.
#[cycle(labels_of)]
pub(crate) fn labels_of(
    f: &Formula,
    along: &Along,
    span: Span,
    env: &mut Env,
) -> Result<Labels, Unlabelled>
    requires along { IsAlong along.now }
    requires span { IsWithin span (length (states_along along.now)) }
    requires frame { length env.old ≡ 32 }
    requires fits { FitsAlong along.now (tree_of_formula f.now) }
    ensures labels { AreLabelsAlong along.now span env.old (tree_of_formula f.now) result }
    ensures frame { OnOk result (env.new ≡ env.old) }
{
    if is_read_whole(f, along) {
        return state_labels(f, along, span, env);
    }
    match f {
        Formula::True => state_labels(f, along, span, env),
        Formula::False => state_labels(f, along, span, env),
        Formula::Atom(pred, terms) => match atom_labels(*pred, terms, along, span, env)? {
            Some(labels) => Ok(labels),
            None => state_labels(f, along, span, env),
        },
        Formula::Defined(_, _) => state_labels(f, along, span, env),
        Formula::Compare(_, _, _) => state_labels(f, along, span, env),
        Formula::GoalFact(_, _) => state_labels(f, along, span, env),
        Formula::GoalPlace(_, _, _) => state_labels(f, along, span, env),
        Formula::GoalNot(_, _) => state_labels(f, along, span, env),
        Formula::Not(part) => negated_labels(part, along, span, env),
        Formula::And(parts) => parts_labels(parts, Junction::All, along, span, env),
        Formula::Or(parts) => parts_labels(parts, Junction::Any, along, span, env),
        Formula::ForAll(vars, bound, part) => {
            let binder = Binder {
                junction: Junction::All,
                vars,
                bound,
                part,
            };
            quantified_labels(&binder, along, span, env)
        }
        Formula::Exists(vars, bound, part) => {
            let binder = Binder {
                junction: Junction::Any,
                vars,
                bound,
                part,
            };
            quantified_labels(&binder, along, span, env)
        }
        Formula::Next(part) => next_labels(part, along, span, env),
        Formula::Always(part) => later_labels(part, Later::Always, along, span, env),
        Formula::Eventually(part) => later_labels(part, Later::Eventually, along, span, env),
        Formula::Until(first, second) => until_labels(first, second, along, span, env),
        Formula::Within(steps, part) => {
            later_labels(part, Later::Within(*steps), along, span, env)
        }
        Formula::During(steps, part) => {
            later_labels(part, Later::During(*steps), along, span, env)
        }
    }
}

/// The labels of a negation.
#[cycle(labels_of)]
fn negated_labels(
    part: &Formula,
    along: &Along,
    span: Span,
    env: &mut Env,
) -> Result<Labels, Unlabelled>
    requires along { IsAlong along.now }
    requires span { IsWithin span (length (states_along along.now)) }
    requires frame { length env.old ≡ 32 }
    requires fits { FitsAlong along.now (negation (tree_of_formula part.now)) }
    ensures labels { AreNegatedLabels along.now span env.old part.now result }
    ensures frame { OnOk result (env.new ≡ env.old) }
{
    let mut found = labels_of(part, along, span, env)?;
    found.negate();
    Ok(found)
}

/// The labels of `next`: those of its part, one position later.
#[cycle(labels_of)]
fn next_labels(
    part: &Formula,
    along: &Along,
    span: Span,
    env: &mut Env,
) -> Result<Labels, Unlabelled>
    requires along { IsAlong along.now }
    requires span { IsWithin span (length (states_along along.now)) }
    requires frame { length env.old ≡ 32 }
    requires fits { FitsAlong along.now (next (tree_of_formula part.now)) }
    ensures labels { AreNextLabels along.now span env.old part.now result }
    ensures frame { OnOk result (env.new ≡ env.old) }
{
    if span.to < along.count {
        let later = Span {
            from: span.from + 1,
            to: span.to + 1,
        };
        return labels_of(part, along, later, env);
    }
    later_labels(part, Later::Next, along, span, env)
}

/// The labels of a word that asks for its part at later positions. Behind those of the last
/// position stand those of the positions that come again: each position sees all that comes after
/// it, and what comes still later has a label that it has seen.
#[cycle(labels_of)]
fn later_labels(
    part: &Formula,
    word: Later,
    along: &Along,
    span: Span,
    env: &mut Env,
) -> Result<Labels, Unlabelled>
    requires along { IsAlong along.now }
    requires span { IsWithin span (length (states_along along.now)) }
    requires frame { length env.old ≡ 32 }
    requires fits { FitsAlong along.now (later_tree word (tree_of_formula part.now)) }
    ensures labels { AreLaterLabels along.now span env.old word part.now result }
    ensures frame { OnOk result (env.new ≡ env.old) }
{
    let ahead = along.ahead(span.from);
    let mut found = labels_of(part, along, ahead, env)?;
    found.repeat_from(along.again - ahead.from)?;
    found.later(word)?;
    found.narrow(span.from - ahead.from, span.to - span.from)?;
    Ok(found)
}

/// The labels of `until`, which go round in the same way.
#[cycle(labels_of)]
fn until_labels(
    first: &Formula,
    second: &Formula,
    along: &Along,
    span: Span,
    env: &mut Env,
) -> Result<Labels, Unlabelled>
    requires along { IsAlong along.now }
    requires span { IsWithin span (length (states_along along.now)) }
    requires frame { length env.old ≡ 32 }
    requires fits { FitsAlong along.now (until_tree first.now second.now) }
    ensures labels { AreUntilLabels along.now span env.old first.now second.now result }
    ensures frame { OnOk result (env.new ≡ env.old) }
{
    let ahead = along.ahead(span.from);
    let mut found = labels_of(first, along, ahead, env)?;
    let mut other = labels_of(second, along, ahead, env)?;
    found.repeat_from(along.again - ahead.from)?;
    other.repeat_from(along.again - ahead.from)?;
    found.until(&other)?;
    found.narrow(span.from - ahead.from, span.to - span.from)?;
    Ok(found)
}

/// The labels of a conjunction or a disjunction.
#[cycle(labels_of)]
fn parts_labels(
    parts: &Formulas,
    junction: Junction,
    along: &Along,
    span: Span,
    env: &mut Env,
) -> Result<Labels, Unlabelled>
    requires along { IsAlong along.now }
    requires span { IsWithin span (length (states_along along.now)) }
    requires frame { length env.old ≡ 32 }
    requires fits { FitsAlong along.now (joined junction (tree_of_formulas parts.now)) }
    ensures labels { AreJoinedLabels along.now span env.old junction parts.now result }
    ensures frame { OnOk result (env.new ≡ env.old) }
{
    let mut all = Labels::all(along.alloc, span.to - span.from, !junction.deciding_truth())?;
    for part in parts.as_slice().iter() {
        let part = Part {
            junction,
            formula: part,
        };
        join_part(&part, along, span, env, &mut all)?;
    }
    Ok(all)
}

/// Joins the labels of a part with those of the parts before it. It is labelled from the first to
/// the last position that these leave open.
#[cycle(labels_of)]
fn join_part(
    part: &Part,
    along: &Along,
    span: Span,
    env: &mut Env,
    all: &mut Labels,
) -> Result<(), Unlabelled>
    requires along { IsAlong along.now }
    requires span { IsWithin span (length (states_along along.now)) }
    requires frame { length env.old ≡ 32 }
    requires fits { FitsAlong along.now (tree_of_formula part.now.formula.now) }
    requires size { span.from + length all.old ≡ span.to }
    ensures joined { JoinsPartAlong along.now span env.old part.now all.old all.new result }
    ensures frame { OnOk result (env.new ≡ env.old) }
{
    match all.undecided(span, part.junction) {
        None => Ok(()),
        Some(inner) => {
            let found = labels_of(part.formula, along, inner, env)?;
            all.join_at(&found, inner.from - span.from, part.junction)?;
            Ok(())
        }
    }
}

/// The labels of a universal or an existential formula: each instance is labelled once, where its
/// tuple makes the bound true.
#[cycle(labels_of)]
fn quantified_labels(
    binder: &Binder,
    along: &Along,
    span: Span,
    env: &mut Env,
) -> Result<Labels, Unlabelled>
    requires along { IsAlong along.now }
    requires span { IsWithin span (length (states_along along.now)) }
    requires frame { length env.old ≡ 32 }
    requires fits { FitsAlong along.now (quantified_tree binder.now) }
    ensures labels { AreQuantifiedLabels along.now span env.old binder.now result }
    ensures frame { OnOk result (env.new ≡ env.old) }
{
    let vars = binder.vars.as_slice();
    let tuples = match tuples_of(binder, along, span, env)? {
        Some(tuples) => tuples,
        None => return Err(Unlabelled::NotKept),
    };
    let outer = env.kept(vars);
    let mut all = Labels::all(
        along.alloc,
        span.to - span.from,
        !binder.junction.deciding_truth(),
    )?;
    for tuple in tuples.facts.iter() {
        env.put_values(vars, tuple.args.as_slice());
        match tuples.there(tuple, along, span, env)? {
            Some(there) => {
                let instance = Instance {
                    binder: *binder,
                    there,
                };
                join_instance(&instance, along, span, env, &mut all)?
            }
            None => return Err(Unlabelled::NotKept),
        }
    }
    env.give_back(vars, &outer);
    Ok(all)
}

/// Joins the labels of an instance with those of the ones before, where its bound is true.
#[cycle(labels_of)]
fn join_instance(
    instance: &Instance,
    along: &Along,
    span: Span,
    env: &mut Env,
    all: &mut Labels,
) -> Result<(), Unlabelled>
    requires along { IsAlong along.now }
    requires span { IsWithin span (length (states_along along.now)) }
    requires frame { length env.old ≡ 32 }
    requires fits { FitsAlong along.now (quantified_tree instance.now.binder) }
    requires there { IsInstanceAlong along.now span env.old instance.now }
    requires size { span.from + length all.old ≡ span.to }
    ensures joined { JoinsAlong along.now span env.old instance.now all.old all.new result }
    ensures frame { OnOk result (env.new ≡ env.old) }
{
    let there = &instance.there;
    match there.hull(span) {
        None => Ok(()),
        Some(hull) => {
            let found = labels_of(instance.binder.part, along, hull, env)?;
            all.join_where(
                there,
                &found,
                hull.from - span.from,
                instance.binder.junction,
            )?;
            Ok(())
        }
    }
}
