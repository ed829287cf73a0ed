// The tuples of quantifiers along some states.
ghost use Rattle.std.specs.Prelude.{length, IfOk, IfNone};
ghost use Rattle.tl_check.specs.AlongStates.{BoundFitsAlong};
ghost use Rattle.tl_check.specs.Facts.{IsAlong};
ghost use Rattle.tl_check.specs.Spans.{IsWithin};
ghost use Rattle.tl_check.specs.StatesAlong.{states_along, KeepsFew};
ghost use Rattle.tl_check.specs.Tuples.{AreTuplesIn, GivesTuples, TellsThere};
ghost use Rattle.tl_syntax.specs.BoundVariables.{DifferInSlot, OccurIn};

use crate::along::Along;
use crate::atoms::{bound_labels, guide_of};
use crate::binder::Binder;
use crate::gathered::gathered;
use crate::labels::Labels;
use crate::line::{Change, line_labels};
use crate::span::Span;
use crate::tracks::{Tracks, fact_of, line_of};
use std::collections::HashMap;
use tl_eval::{BoundPattern, Env};
use tl_syntax::{Bound, Fact, NoMemory};
use tl_world::World;

/// Tuples with all that make a bound true in one of some states.
#[derive(Drop)]
pub(crate) struct Tuples<'a> {
    /// The bound.
    pub(crate) bound: &'a Bound,
    /// The tuples, as facts of predicate 0.
    pub(crate) facts: Vec<Fact>,
    /// Where each makes the bound true, where that was found with them.
    pub(crate) lines: Option<HashMap<Fact, Vec<Change>>>,
}

/// The tuples of a quantifier in a world, as facts of predicate 0. It fails for want of memory
/// alone.
fn tuples_in(binder: &Binder, w: &World, along: &Along, env: &Env) -> Result<Vec<Fact>, NoMemory>
    requires differ { DifferInSlot binder.now.vars.now }
    requires occur { OccurIn binder.now.vars.now binder.now.bound.now }
    requires fits { BoundFitsAlong along.now binder.now.bound.now }
    ensures { IfOk result (λ facts. AreTuplesIn along.now env.now binder.now w.now facts.items) }
{
    let mut facts = Vec::new(along.alloc);
    let mut pattern = BoundPattern::unopened(true);
    pattern.open_in_place(along.task, env, binder.vars, binder.bound);
    let mut tuples = pattern.tuples(along.task, w, binder.bound);
    'reading: while tuples.next() {
        let fact = fact_of(along.alloc, 0, tuples.values())?;
        facts.push(fact)?;
    }
    Ok(facts)
}

/// Tuples for the variables of a quantifier, with all that make its bound true at a position of the
/// span: those of one world that has them all, where one is known, or else those of the states,
/// where these are kept. It fails for want of memory alone.
pub(crate) fn tuples_of<'a>(
    binder: &Binder<'a>,
    along: &Along,
    span: Span,
    env: &Env,
) -> Result<Option<Tuples<'a>>, NoMemory>
    requires along { IsAlong along.now }
    requires span { IsWithin span (length (states_along along.now)) }
    requires differ { DifferInSlot binder.now.vars.now }
    requires occur { OccurIn binder.now.vars.now binder.now.bound.now }
    requires fits { BoundFitsAlong along.now binder.now.bound.now }
    ensures tuples { GivesTuples along.now env.now binder.now span result }
    ensures few { IfOk result (λ found. IfNone found (KeepsFew along.now)) }
{
    let bound = binder.bound;
    if let Some(guide) = guide_of(bound, along) {
        let facts = tuples_in(binder, guide, along, env)?;
        return Ok(Some(Tuples {
            bound,
            facts,
            lines: None,
        }));
    }
    match gathered(binder, along, span, env)? {
        Some(tracks) => {
            let Tracks { lines, seen } = tracks;
            Ok(Some(Tuples {
                bound,
                facts: seen,
                lines: Some(lines),
            }))
        }
        None => Ok(None),
    }
}

impl Tuples<'_> {
    /// Where one of the tuples makes the bound true, whose values are in the frame. It fails for
    /// want of memory alone.
    pub(crate) fn there(
        &self,
        tuple: &Fact,
        along: &Along,
        span: Span,
        env: &Env,
    ) -> Result<Option<Labels>, NoMemory>
        requires along { IsAlong along.now }
        requires span { IsWithin span (length (states_along along.now)) }
        requires fits { BoundFitsAlong along.now self.now.bound.now }
        ensures there { TellsThere along.now span env.now self.now tuple.now result }
        ensures few { IfOk result (λ found. IfNone found (KeepsFew along.now)) }
    {
        match &self.lines {
            Some(lines) => {
                let labels = line_labels(along.alloc, line_of(lines, tuple), span)?;
                Ok(Some(labels))
            }
            None => bound_labels(self.bound, along, span, env),
        }
    }
}
