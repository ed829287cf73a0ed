// The command `check-loop`: the verdict on a plan with a repeated part.
ghost use Rattle.std.specs.Prelude.{◌≡◌, ℕ, List, IfOk};
ghost use Rattle.tl_lasso.specs.LoopTexts.{loop_text};
ghost use Rattle.tl_lasso.specs.Verdicts.{IsLoopCause};
ghost use Rattle.tl_terms.specs.ProblemMeaning.{plain_problem};
ghost use Rattle.tl_run.specs.CheckLoop.{loop_status};
ghost use Rattle.tl_run.specs.Commands as commands;
ghost use Rattle.tl_run.specs.Held.{KeepsParts};
ghost use Rattle.tl_run.specs.Inputs.{a_loop};
ghost use Rattle.tl_run.specs.Replies.{Replies};

use crate::reply::Reply;
use crate::status::Status;
use std::alloc::Global;
use tl_lasso::{CheckFault, LoopPlan, LoopVerdict, loop_text};
use tl_syntax::{NoMemory, Problem};
use tl_text::range_text;
use tl_world::Task;

/// The status with a verdict.
fn status_of(verdict: LoopVerdict) -> Status
    ensures { result ≡ loop_status verdict }
{
    match verdict {
        LoopVerdict::Valid => Status::Yes,
        LoopVerdict::NotExecutable(_) => Status::No,
        LoopVerdict::NotClosed => Status::No,
        LoopVerdict::GoalUnmet => Status::No,
        LoopVerdict::Disobeys => Status::No,
    }
}

/// The reply with a verdict.
fn verdict_reply(alloc: Global, verdict: LoopVerdict) -> Result<Reply, NoMemory>
    ensures status { IfOk result (λ reply. reply.status ≡ loop_status verdict) }
    ensures text { IfOk result (λ reply. reply.text ≡ loop_text verdict) }
{
    let text = loop_text(alloc, &verdict)?;
    let status = status_of(verdict);
    Ok(Reply { status, text })
}

/// The reply where the check of a plan ends with a fault.
fn fault_reply(
    alloc: Global,
    problem: &Problem,
    plan: &LoopPlan,
    fault: CheckFault,
) -> Result<Reply, NoMemory>
    requires { IsLoopCause (plain_problem problem.now) plan.now.stem plan.now.cycle fault }
    ensures { (d p q : List ℕ) → IfOk result (Replies (commands.check_loop d p q) (a_loop problem.now plan.now)) }
{
    match fault {
        CheckFault::Range { after, note } => {
            let text = range_text(alloc, problem, &note, after, &[])?;
            let status = Status::Range;
            Ok(Reply { status, text })
        }
        CheckFault::NoMemory => Err(NoMemory),
    }
}

/// The reply on a plan of the task's problem.
fn task_reply(alloc: Global, task: &Task, plan: &LoopPlan) -> Result<Reply, NoMemory>
    requires { KeepsParts task.now.problem.names task.now.problem.domain.operators plan.now }
    ensures { (d p q : List ℕ) → IfOk result (Replies (commands.check_loop d p q) (a_loop task.now.problem plan.now)) }
{
    match tl_lasso::check_loop(alloc, task, plan.stem.as_slice(), plan.cycle.as_slice()) {
        Ok(verdict) => verdict_reply(alloc, verdict),
        Err(fault) => fault_reply(alloc, &task.problem, plan, fault),
    }
}

/// The verdict on a plan with a repeated part, or the operation past range that its check looks at.
pub(crate) fn reply(alloc: Global, problem: Problem, plan: &LoopPlan) -> Result<Reply, NoMemory>
    requires { KeepsParts problem.names problem.domain.operators plan.now }
    ensures { (d p q : List ℕ) → IfOk result (Replies (commands.check_loop d p q) (a_loop problem plan.now)) }
{
    let task = Task::of(alloc, problem)?;
    let reply = task_reply(alloc, &task, plan);
    drop(task);
    reply
}
