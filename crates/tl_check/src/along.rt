// What formulas are labelled along.
ghost use Rattle.std.specs.Prelude.{◌≡◌, IfSome, IfNone};
ghost use Rattle.tl_check.specs.Facts.{IsAlong, IsAheadOf};
ghost use Rattle.tl_check.specs.StatesAlong.{states_along, KeepsFew};
ghost use Rattle.tl_syntax.specs.Lists.{Among};

use crate::history::History;
use crate::span::Span;
use std::alloc::Global;
use tl_syntax::Action;
use tl_world::{Task, World};

/// What formulas are labelled along: the states of a plan.
#[derive(Clone, Copy)]
pub(crate) struct Along<'a> {
    /// Where memory comes from.
    pub(crate) alloc: Global,
    /// The task of the plan.
    pub(crate) task: &'a Task,
    /// The plan.
    pub(crate) plan: &'a [Action],
    /// How many states it has.
    pub(crate) count: usize,
    /// Which of them comes after the last one: from there on they are repeated for ever. A plan
    /// that ends repeats the last one.
    pub(crate) again: usize,
    /// These states in their order, or none where they are not kept.
    pub(crate) kept: &'a [World],
    /// When the facts of some predicates hold in them.
    pub(crate) histories: &'a [History],
}

impl Along<'_> {
    /// All the states, where they are kept. It takes no memory.
    pub(crate) fn states(&self) -> Option<&[World]>
        requires { IsAlong self.now }
        ensures all { IfSome result (λ worlds. worlds.now ≡ states_along self.now) }
        ensures few { IfNone result (KeepsFew self.now) }
    {
        if self.kept.len() == self.count {
            Some(self.kept)
        } else {
            None
        }
    }

    /// The positions from this one on, and all of those that come again: no others come at it or
    /// after it. It takes no memory.
    pub(crate) fn ahead(&self, from: usize) -> Span
        ensures { IsAheadOf self.now from result }
    {
        let first = if self.again < from { self.again } else { from };
        Span {
            from: first,
            to: self.count,
        }
    }

    /// When the facts of a predicate hold, where that is known. It takes no memory.
    pub(crate) fn history(&self, pred: u32) -> Option<&History>
        ensures { IfSome result (λ h. (h.now.pred ≡ pred) × Among h.now self.now.histories.now) }
    {
        for history in self.histories.iter() {
            if history.pred == pred {
                return Some(history);
            }
        }
        None
    }
}
