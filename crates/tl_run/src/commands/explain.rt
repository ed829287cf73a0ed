// The command `explain`: the residuals along a plan.
ghost use Rattle.std.specs.Prelude.{◌≤◌, ℕ, List, length, IfOk};
ghost use Rattle.tl_syntax.specs.Lists.{Each};
ghost use Rattle.tl_line.specs.NamedActions.{ActionIsNamed};
ghost use Rattle.tl_explain.specs.Causes.{IsExplainCause};
ghost use Rattle.tl_terms.specs.ProblemMeaning.{plain_problem};
ghost use Rattle.tl_run.specs.Commands.{explain};
ghost use Rattle.tl_run.specs.Inputs.{a_plan};
ghost use Rattle.tl_run.specs.Replies.{Replies};

use crate::reply::Reply;
use crate::status::Status;
use std::alloc::Global;
use tl_explain::ExplainFault;
use tl_syntax::{Action, NoMemory, Problem};
use tl_text::range_text;
use tl_world::Task;

/// The reply where a plan is not explained.
fn fault_reply(
    alloc: Global,
    problem: &Problem,
    plan: &[Action],
    fault: ExplainFault,
) -> Result<Reply, NoMemory>
    requires { IsExplainCause (plain_problem problem.now) plan.now fault }
    ensures { (d p q : List ℕ) → IfOk result (Replies (explain d p q) (a_plan problem.now plan.now)) }
{
    match fault {
        ExplainFault::Range { after, note } => {
            let text = range_text(alloc, problem, &note, after, &[])?;
            let status = Status::Range;
            Ok(Reply { status, text })
        }
        ExplainFault::NoMemory => Err(NoMemory),
    }
}

/// The reply on a plan of the task's problem.
fn task_reply(alloc: Global, task: &Task, plan: &[Action]) -> Result<Reply, NoMemory>
    requires named { Each (ActionIsNamed task.now.problem.names task.now.problem.domain.operators) plan.now }
    requires few { length plan.now ≤ 100000 }
    ensures { (d p q : List ℕ) → IfOk result (Replies (explain d p q) (a_plan task.now.problem plan.now)) }
{
    match tl_explain::explain(alloc, task, plan) {
        Ok(text) => {
            let status = Status::Yes;
            Ok(Reply { status, text })
        }
        Err(fault) => fault_reply(alloc, &task.problem, plan, fault),
    }
}

/// The lines that explain a plan of a problem, or the operation past range that is looked at along
/// it.
pub(crate) fn reply(alloc: Global, problem: Problem, plan: &[Action]) -> Result<Reply, NoMemory>
    requires named { Each (ActionIsNamed problem.names problem.domain.operators) plan.now }
    requires few { length plan.now ≤ 100000 }
    ensures { (d p q : List ℕ) → IfOk result (Replies (explain d p q) (a_plan problem plan.now)) }
{
    let task = Task::of(alloc, problem)?;
    let reply = task_reply(alloc, &task, plan);
    drop(task);
    reply
}
