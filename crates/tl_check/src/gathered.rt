// The tuples of a bound along some states, and where each makes it true.
ghost use Rattle.std.specs.Prelude.{◌≡◌, ◌<◌, length, IfOk, IfNone, OnOk};
ghost use Rattle.tl_check.specs.AlongStates.{BoundFitsAlong};
ghost use Rattle.tl_check.specs.Facts.{IsAlong};
ghost use Rattle.tl_check.specs.Gathered.{AreGathered, GivesGathered, NoteTuples, KeepCounts};
ghost use Rattle.tl_check.specs.Spans.{IsWithin};
ghost use Rattle.tl_check.specs.StatesAlong.{states_along, KeepsFew};
ghost use Rattle.tl_check.specs.Tracks.{HaveSeenAll};
ghost use Rattle.tl_syntax.specs.BoundVariables.{DifferInSlot, OccurIn};

use crate::along::Along;
use crate::binder::Binder;
use crate::same_places::same_up_to;
use crate::span::Span;
use crate::tracks::{Tracks, fact_of};
use tl_eval::{BoundPattern, Env};
use tl_syntax::NoMemory;
use tl_world::World;

/// States in a row in which the tuples of a quantifier are the same.
#[derive(Clone, Copy)]
struct Alike<'a> {
    /// The quantifier.
    binder: Binder<'a>,
    /// The first of them.
    first: &'a World,
    /// Their positions.
    span: Span,
}

impl Tracks {
    /// Adds that each tuple of the bound in the first of the states makes it true in all of them.
    /// It fails for want of memory alone.
    ///
    /// A tuple is kept as a fact of predicate 0.
    fn note_tuples(&mut self, alike: &Alike, along: &Along, env: &Env) -> Result<(), NoMemory>
        requires covered { HaveSeenAll self.old }
        requires some { alike.now.span.from < alike.now.span.to }
        requires differ { DifferInSlot alike.now.binder.vars.now }
        requires occur { OccurIn alike.now.binder.vars.now alike.now.binder.bound.now }
        requires fits { BoundFitsAlong along.now alike.now.binder.bound.now }
        ensures noted { OnOk result (NoteTuples along.now env.now alike.now self.old self.new) }
        ensures covered { OnOk result (HaveSeenAll self.new) }
        ensures counts { OnOk result (KeepCounts alike.now.binder self.old self.new) }
    {
        let binder = alike.binder;
        let mut pattern = BoundPattern::unopened(true);
        pattern.open_in_place(along.task, env, binder.vars, binder.bound);
        let mut tuples = pattern.tuples(along.task, alike.first, binder.bound);
        'reading: while tuples.next() {
            let fact = fact_of(along.alloc, 0, tuples.values())?;
            self.note_span(along.alloc, fact, alike.span)?;
        }
        Ok(())
    }
}

/// The tuples of the bound in these states at the positions of a span, with the positions at which
/// each makes it true. It fails for want of memory alone.
///
/// The tuples are read once for states in a row whose places are the same.
fn gathered_in(
    worlds: &[World],
    binder: &Binder,
    along: &Along,
    span: Span,
    env: &Env,
) -> Result<Tracks, NoMemory>
    requires worlds { worlds.now ≡ states_along along.now }
    requires span { IsWithin span (length (states_along along.now)) }
    requires differ { DifferInSlot binder.now.vars.now }
    requires occur { OccurIn binder.now.vars.now binder.now.bound.now }
    requires fits { BoundFitsAlong along.now binder.now.bound.now }
    ensures { IfOk result (AreGathered along.now env.now binder.now span) }
{
    let mut tracks = Tracks::new(along.alloc);
    let mut i = span.from;
    while i < span.to {
        let rest = Span {
            from: i,
            to: span.to,
        };
        let end = same_up_to(binder.bound, worlds, rest);
        let w = &worlds[i];
        let alike = Alike {
            binder: *binder,
            first: w,
            span: Span { from: i, to: end },
        };
        tracks.note_tuples(&alike, along, env)?;
        i = end;
    }
    Ok(tracks)
}

/// The tuples of the bound at the positions of a span, with the positions at which each makes it
/// true, where the states are kept. It fails for want of memory alone.
pub(crate) fn gathered(
    binder: &Binder,
    along: &Along,
    span: Span,
    env: &Env,
) -> Result<Option<Tracks>, NoMemory>
    requires along { IsAlong along.now }
    requires span { IsWithin span (length (states_along along.now)) }
    requires differ { DifferInSlot binder.now.vars.now }
    requires occur { OccurIn binder.now.vars.now binder.now.bound.now }
    requires fits { BoundFitsAlong along.now binder.now.bound.now }
    ensures gathered { GivesGathered along.now env.now binder.now span result }
    ensures few { IfOk result (λ found. IfNone found (KeepsFew along.now)) }
{
    match along.states() {
        Some(worlds) => {
            let tracks = gathered_in(worlds, binder, along, span, env)?;
            Ok(Some(tracks))
        }
        None => Ok(None),
    }
}
