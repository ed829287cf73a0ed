// The states of a plan, as it is followed.
ghost use Rattle.std.specs.Prelude.{◌≡◌, ◌<◌, ◌^◌, length};
ghost use Rattle.tl_action.specs.Actions.{HasOperator};
ghost use Rattle.tl_check.specs.Executions.{told_after};
ghost use Rattle.tl_check.specs.Trails.{IsFollowedBy};
ghost use Rattle.tl_syntax.specs.Lists.{Each};
ghost use Rattle.tl_terms.specs.ProblemMeaning.{plain_problem};

use crate::CheckFault;
use crate::trail::Trail;
use std::alloc::Global;
use std::sync::ledger::Ledger;
use tl_action::{Here, changes_if_executable};
use tl_eval::{Env, EvalFault};
use tl_syntax::Action;
use tl_terms::Steps;
use tl_world::Task;

/// What comes of following a plan.
#[derive(Drop)]
pub enum Followed {
    /// This action, counted from 1, is not executable in its turn.
    Stopped(u32),
    /// All actions execute, and this is kept of their states.
    Ended(Trail),
}

/// How a plan is followed.
#[derive(Clone, Copy)]
pub(crate) struct Follow<'a> {
    /// Where memory comes from.
    pub(crate) alloc: Global,
    /// The task of the plan.
    pub(crate) task: &'a Task,
    /// The predicates whose facts' changes are kept.
    pub(crate) preds: &'a [u32],
    /// Whether the states themselves are kept.
    pub(crate) keeps: bool,
}

/// The fault of an action that comes after so many others. It takes no memory.
fn fault_after(after: u32, fault: EvalFault) -> CheckFault
    ensures { result ≡ told_after after fault }
{
    match fault {
        EvalFault::Range(note) => CheckFault::Range { after, note },
        EvalFault::NoMemory => CheckFault::NoMemory,
    }
}

/// Executes a plan from the first world on, and keeps of the states what is asked for. One world is
/// held at a time, where the states are not kept.
pub(crate) fn follow_plan<L: Ledger>(
    follow: &Follow,
    plan: &[Action],
    env: &mut Env,
    steps: &mut Steps<L>,
) -> Result<Followed, CheckFault>
    requires operators { Each (HasOperator (plain_problem follow.now.task.now.problem)) plan.now }
    requires short { length plan.now < 2 ^ 32 }
    ensures { IsFollowedBy follow.now plan.now result }
{
    let alloc = follow.alloc;
    let task = follow.task;
    let mut trail = Trail::begun(alloc, &task.first, follow.preds, follow.keeps)?;
    for k in 0..plan.len() {
        let here = Here {
            alloc,
            task,
            world: &trail.world,
        };
        match changes_if_executable(&here, env, &plan[k], steps) {
            Ok(Some(changes)) => trail.go_on(alloc, &changes, k + 1, follow.keeps)?,
            Ok(None) => return Ok(Followed::Stopped(k as u32 + 1)),
            Err(fault) => return Err(fault_after(k as u32, fault)),
        }
    }
    Ok(Followed::Ended(trail))
}
