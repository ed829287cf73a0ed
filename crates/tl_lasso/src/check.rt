// The check of a plan with a repeated part.
ghost use Rattle.std.specs.Prelude.{◌≡◌, ◌↔◌, ◌<◌, ◌+◌, ◌++◌, ◌^◌, length, IfOk, IfErr, OnOk, IsTrue};
ghost use Rattle.tl_action.specs.Actions.{HasOperator};
ghost use Rattle.tl_check.specs.Judged.{IsKept};
ghost use Rattle.tl_lasso.specs.Judged.{IsJudgement};
ghost use Rattle.tl_lasso.specs.Verdicts.{IsAcceptedForEver, IsLoopVerdict, IsLoopCause};
ghost use Rattle.tl_lasso.specs.declared.verdict.LoopVerdict.TheVariants as verdict;
ghost use Rattle.tl_syntax.specs.Lists.{Each};
ghost use Rattle.tl_terms.specs.ProblemMeaning.{plain_problem};

use crate::verdict::LoopVerdict;
use std::alloc::Global;
use tl_action::CheckFault;
use tl_check::{Followed, Round, Trail, follow_with_states, obeys_round};
use tl_syntax::{Action, Actions, NoMemory};
use tl_world::{Task, World};

/// Adds copies of actions at the end. It fails for want of memory alone.
fn add_copies(alloc: Global, plan: &mut Actions, actions: &[Action]) -> Result<(), NoMemory>
    ensures { OnOk result (plan.new ≡ plan.old ++ actions.now) }
{
    for action in actions {
        plan.push(action.copy(alloc)?)?;
    }
    Ok(())
}

/// Both parts as one plan. It fails for want of memory alone.
fn both_parts(alloc: Global, stem: &[Action], cycle: &[Action]) -> Result<Actions, NoMemory>
    ensures { IfOk result (λ plan. plan ≡ stem.now ++ cycle.now) }
{
    let mut plan = Actions::new(alloc);
    add_copies(alloc, &mut plan, stem)?;
    add_copies(alloc, &mut plan, cycle)?;
    Ok(plan)
}

/// Whether the worlds are the same, in their facts and in the values of all places. It takes no
/// memory.
fn are_same(left: &World, right: &World) -> bool
    ensures { IsTrue result ↔ (left.now ≡ right.now) }
{
    left == right
}

/// The verdict on a plan all of whose actions execute, by what is kept of its states.
fn verdict_of(
    alloc: Global,
    task: &Task,
    round: &Round,
    trail: Trail,
) -> Result<LoopVerdict, CheckFault>
    requires short { length round.now.plan.now < 2 ^ 32 }
    requires some { round.now.again < length round.now.plan.now }
    requires kept { IsKept (plain_problem task.now.problem) round.now.plan.now trail }
    ensures { IsJudgement (plain_problem task.now.problem) round.now result }
{
    let worlds = trail.worlds();
    let begins = round.again;
    let ends = round.plan.len();
    let first = &worlds[begins];
    let last = &worlds[ends];
    if !are_same(last, first) {
        return Ok(LoopVerdict::NotClosed);
    }
    if !task.met(first) {
        return Ok(LoopVerdict::GoalUnmet);
    }
    if obeys_round(alloc, task, round, trail)? {
        Ok(LoopVerdict::Valid)
    } else {
        Ok(LoopVerdict::Disobeys)
    }
}

/// The verdict on a plan with a part that is repeated for ever, each exactly where it is right.
/// Both parts are executed once, with their states kept, and then the control formula is labelled
/// along them as by `tl_check::check`. Nothing is progressed.
pub fn check_loop(
    alloc: Global,
    task: &Task,
    stem: &[Action],
    cycle: &[Action],
) -> Result<LoopVerdict, CheckFault>
    requires some { 0 < length cycle.now }
    requires few { length stem.now + length cycle.now < 2 ^ 32 }
    requires stem { Each (HasOperator (plain_problem task.now.problem)) stem.now }
    requires cycle { Each (HasOperator (plain_problem task.now.problem)) cycle.now }
    ensures verdict { IfOk result (IsLoopVerdict (plain_problem task.now.problem) stem.now cycle.now) }
    ensures valid { IfOk result (λ v. (v ≡ verdict.Valid)
        ↔ IsAcceptedForEver (plain_problem task.now.problem) stem.now cycle.now) }
    ensures cause { IfErr result (IsLoopCause (plain_problem task.now.problem) stem.now cycle.now) }
{
    let plan = both_parts(alloc, stem, cycle)?;
    match follow_with_states(alloc, task, plan.as_slice())? {
        Followed::Stopped(k) => Ok(LoopVerdict::NotExecutable(k)),
        Followed::Ended(trail) => {
            let round = Round {
                plan: plan.as_slice(),
                again: stem.len(),
            };
            verdict_of(alloc, task, &round, trail)
        }
    }
}
