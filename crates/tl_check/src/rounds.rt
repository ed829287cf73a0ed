// Plans whose last part is repeated for ever.
ghost use Rattle.std.specs.Prelude.{◌≡◌, ◌<◌, ◌^◌, length, true};
ghost use Rattle.tl_action.specs.Actions.{HasOperator};
ghost use Rattle.tl_check.specs.Facts.{IsAlong};
ghost use Rattle.tl_check.specs.Judged.{IsKept, Obeys, ObeysRound};
ghost use Rattle.tl_check.specs.StatesAlong.{course_along, states_along};
ghost use Rattle.tl_check.specs.Trails.{IsFollowed};
ghost use Rattle.tl_syntax.specs.Lists.{Each};
ghost use Rattle.tl_terms.specs.ProblemMeaning.{plain_problem};

use crate::CheckFault;
use crate::along::Along;
use crate::checker::{followed_by, obeys};
use crate::following::{Follow, Followed};
use crate::history::histories_of;
use crate::predicates::predicates_of;
use crate::trail::Trail;
use crate::unlabelled::Unlabelled;
use std::alloc::Global;
use std::marker::Brand;
use std::sync::ledger::Blank;
use tl_syntax::Action;
use tl_world::Task;

/// A plan that is followed once, and whose last part is repeated for ever.
#[derive(Clone, Copy)]
pub struct Round<'a> {
    /// Its actions, those of the repeated part once.
    pub plan: &'a [Action],
    /// How many of them come before the repeated part, which has one at least.
    pub again: usize,
}

/// Follows a plan from the first world on, and keeps its states, with the changes of the facts of
/// which the control formula speaks.
pub fn follow_with_states(
    alloc: Global,
    task: &Task,
    plan: &[Action],
) -> Result<Followed, CheckFault>
    requires operators { Each (HasOperator (plain_problem task.now.problem)) plan.now }
    requires short { length plan.now < 2 ^ 32 }
    ensures { IsFollowed (plain_problem task.now.problem) true plan.now result }
{
    let preds = predicates_of(alloc, &task.problem.domain.control)?;
    let follow = Follow {
        alloc,
        task,
        preds: preds.as_slice(),
        keeps: true,
    };
    followed_by::<Brand>(&follow, plan, Blank::new(1))
}

/// Whether the control formula holds at the first position of the run of these states, all of which
/// are kept.
fn obeys_kept(along: &Along) -> Result<bool, CheckFault>
    requires along { IsAlong along.now }
    requires kept { length along.now.kept.now ≡ along.now.count }
    ensures { Obeys (course_along along.now) (states_along along.now) result }
{
    match obeys(along) {
        Ok(truth) => Ok(truth),
        Err(Unlabelled::Fault(fault)) => Err(fault),
        Err(Unlabelled::NotKept) => unreachable!(),
    }
}

/// Whether the control formula holds at the first position of the run that goes through the plan's
/// repeated part again and again, which ends in the state in which it began. It fails for want of
/// memory, or where an operation that it looks at is past range.
pub fn obeys_round(
    alloc: Global,
    task: &Task,
    round: &Round,
    trail: Trail,
) -> Result<bool, CheckFault>
    requires short { length round.now.plan.now < 2 ^ 32 }
    requires some { round.now.again < length round.now.plan.now }
    requires kept { IsKept (plain_problem task.now.problem) round.now.plan.now trail }
    ensures { ObeysRound (plain_problem task.now.problem) round.now result }
{
    let Trail { kept, tracks, .. } = trail;
    let histories = histories_of(alloc, tracks)?;
    let count = round.plan.len();
    let along = Along {
        alloc,
        task,
        plan: &round.plan[..count - 1],
        count,
        again: round.again,
        kept: &kept.as_slice()[..count],
        histories: histories.as_slice(),
    };
    obeys_kept(&along)
}
