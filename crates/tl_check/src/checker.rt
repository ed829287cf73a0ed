// The check of a plan.
ghost use Rattle.std.specs.Prelude.{◌≡◌, ◌<◌, ◌^◌, length, true, IfOk, IfErr};
ghost use Rattle.tl_action.specs.Actions.{HasOperator};
ghost use Rattle.tl_check.specs.Facts.{IsAlong};
ghost use Rattle.tl_check.specs.Judged.{IsTrailOf, IsCauseByTrail, IsCauseFollowing, ObeysAlong};
ghost use Rattle.tl_check.specs.Trails.{HasStates, IsFollowedBy};
ghost use Rattle.tl_check.specs.Verdicts.{IsVerdict, IsCause, AcceptsRightly};
ghost use Rattle.tl_syntax.specs.Lists.{Each};
ghost use Rattle.tl_terms.specs.ProblemMeaning.{plain_problem};

use crate::along::Along;
use crate::following::{Follow, Followed, follow_plan};
use crate::formula_labels::labels_of;
use crate::history::histories_of;
use crate::plain::{Compared, is_plain};
use crate::predicates::predicates_of;
use crate::span::Span;
use crate::trail::Trail;
use crate::unlabelled::Unlabelled;
use crate::{CheckFault, Verdict};
use std::alloc::Global;
use std::marker::Brand;
use std::sync::ledger::{Blank, Ledger};
use tl_eval::Env;
use tl_syntax::Action;
use tl_terms::Steps;
use tl_world::Task;

/// Whether the control formula holds at the first position of the run of these states.
pub(crate) fn obeys(along: &Along) -> Result<bool, Unlabelled>
    requires { IsAlong along.now }
    ensures { ObeysAlong along.now result }
{
    let first = Span { from: 0, to: 1 };
    let mut env = Env::for_task(along.alloc, along.task)?;
    let labels = labels_of(&along.task.problem.domain.control, along, first, &mut env)?;
    Ok(labels.at(0))
}

/// The verdict on a plan all of whose actions execute, by what is kept of its states.
fn verdict_of(
    alloc: Global,
    task: &Task,
    plan: &[Action],
    trail: Trail,
) -> Result<Verdict, Unlabelled>
    requires short { length plan.now < 2 ^ 32 }
    requires executes { HasStates (plain_problem task.now.problem) plan.now }
    requires trail { IsTrailOf (plain_problem task.now.problem) plan.now trail }
    ensures verdict { IfOk result (IsVerdict (plain_problem task.now.problem) plan.now) }
    ensures cause { IfErr result (IsCauseByTrail (plain_problem task.now.problem) plan.now trail) }
{
    if !task.met(&trail.world) {
        return Ok(Verdict::GoalUnmet);
    }
    let Trail { kept, tracks, .. } = trail;
    let histories = histories_of(alloc, tracks)?;
    let along = Along {
        alloc,
        task,
        plan,
        count: plan.len() + 1,
        again: plan.len(),
        kept: kept.as_slice(),
        histories: histories.as_slice(),
    };
    if obeys(&along)? {
        Ok(Verdict::Valid)
    } else {
        Ok(Verdict::Disobeys)
    }
}

/// What comes of following a plan, over a count of steps and a frame of its own.
pub(crate) fn followed_by<L: Ledger>(
    follow: &Follow,
    plan: &[Action],
    blank: Blank,
) -> Result<Followed, CheckFault>
    requires operators { Each (HasOperator (plain_problem follow.now.task.now.problem)) plan.now }
    requires short { length plan.now < 2 ^ 32 }
    requires name { blank.name ≡ L.name }
    requires parts { blank.parts ≡ L.parts }
    requires some { 0 < blank.parts }
    ensures { IsFollowedBy follow.now plan.now result }
{
    let mut env = Env::for_task(follow.alloc, follow.task)?;
    let mut steps: Steps<L> = Steps::new(blank);
    follow_plan(follow, plan, &mut env, &mut steps)
}

/// The verdict on a plan, which is followed with its states kept or not. Where they are kept, none
/// is missed.
fn verdict_by(follow: &Follow, plan: &[Action]) -> Result<Verdict, Unlabelled>
    requires operators { Each (HasOperator (plain_problem follow.now.task.now.problem)) plan.now }
    requires short { length plan.now < 2 ^ 32 }
    ensures verdict { IfOk result (IsVerdict (plain_problem follow.now.task.now.problem) plan.now) }
    ensures cause { IfErr result (IsCauseFollowing follow.now plan.now) }
{
    match followed_by::<Brand>(follow, plan, Blank::new(1))? {
        Followed::Stopped(k) => Ok(Verdict::NotExecutable(k)),
        Followed::Ended(trail) => verdict_of(follow.alloc, follow.task, plan, trail),
    }
}

/// The verdict on a plan that is followed with its states kept.
fn verdict_by_states(follow: &Follow, plan: &[Action]) -> Result<Verdict, CheckFault>
    requires operators { Each (HasOperator (plain_problem follow.now.task.now.problem)) plan.now }
    requires short { length plan.now < 2 ^ 32 }
    requires kept { follow.now.keeps ≡ true }
    ensures verdict { IfOk result (IsVerdict (plain_problem follow.now.task.now.problem) plan.now) }
    ensures cause { IfErr result (IsCause (plain_problem follow.now.task.now.problem) plan.now) }
{
    match verdict_by(follow, plan) {
        Ok(verdict) => Ok(verdict),
        Err(Unlabelled::Fault(fault)) => Err(fault),
        Err(Unlabelled::NotKept) => unreachable!(),
    }
}

/// The verdict on a plan, each exactly where it is right. The plan is executed with one state at a
/// time, and the changes of the facts of which the control formula speaks are noted; then its parts
/// are labelled with their truth along the states. Nothing is progressed.
pub fn check(alloc: Global, task: &Task, plan: &[Action]) -> Result<Verdict, CheckFault>
    requires operators { Each (HasOperator (plain_problem task.now.problem)) plan.now }
    requires short { length plan.now < 2 ^ 32 }
    ensures verdict { IfOk result (IsVerdict (plain_problem task.now.problem) plan.now) }
    ensures valid { IfOk result (AcceptsRightly (plain_problem task.now.problem) plan.now) }
    ensures cause { IfErr result (IsCause (plain_problem task.now.problem) plan.now) }
{
    let control = &task.problem.domain.control;
    let preds = predicates_of(alloc, control)?;
    let with_states = Follow {
        alloc,
        task,
        preds: preds.as_slice(),
        keeps: true,
    };
    if !is_plain(control, Compared::Fixed) {
        return verdict_by_states(&with_states, plan);
    }
    let follow = Follow {
        alloc,
        task,
        preds: preds.as_slice(),
        keeps: false,
    };
    match verdict_by(&follow, plan) {
        Ok(verdict) => Ok(verdict),
        Err(Unlabelled::Fault(fault)) => Err(fault),
        Err(Unlabelled::NotKept) => verdict_by_states(&with_states, plan),
    }
}
