// The command `check`: the verdict on a plan.
ghost use Rattle.std.specs.Prelude.{◌≡◌, ◌≤◌, ℕ, List, [], length, IfOk};
ghost use Rattle.tl_syntax.specs.Lists.{Each};
ghost use Rattle.tl_line.specs.NamedActions.{ActionIsNamed};
ghost use Rattle.tl_check.specs.Verdicts.{IsCause};
ghost use Rattle.tl_action.specs.declared.check_fault.CheckFault.TheVariants as fault;
ghost use Rattle.tl_terms.specs.ProblemMeaning.{plain_problem};
ghost use Rattle.tl_text.specs.Ranges.{range_text};
ghost use Rattle.tl_text.specs.Verdicts.{verdict_text};
ghost use Rattle.tl_run.specs.Answers.{verdict_status};
ghost use Rattle.tl_search.specs.declared.outcome.Outcome.TheVariants as outcome;
ghost use Rattle.tl_run.specs.Commands.{check, sample};
ghost use Rattle.tl_run.specs.Inputs.{a_problem, a_plan};
ghost use Rattle.tl_run.specs.Plan.{IsOutcome};
ghost use Rattle.tl_run.specs.Replies.{Replies};
ghost use Rattle.tl_run.specs.Sample.{sample_search};

use crate::reply::Reply;
use crate::status::Status;
use std::alloc::Global;
use tl_check::{CheckFault, Verdict};
use tl_syntax::{Action, NoMemory, Problem};
use tl_text::{range_text, verdict_text};
use tl_world::Task;

fn status_of(verdict: Verdict) -> Status
    ensures { result ≡ verdict_status verdict }
{
    match verdict {
        Verdict::Valid => Status::Yes,
        Verdict::NotExecutable(_) => Status::No,
        Verdict::GoalUnmet => Status::No,
        Verdict::Disobeys => Status::No,
    }
}

/// The reply with a verdict.
fn verdict_reply(alloc: Global, verdict: Verdict) -> Result<Reply, NoMemory>
    ensures status { IfOk result (λ reply. reply.status ≡ verdict_status verdict) }
    ensures text { IfOk result (λ reply. reply.text ≡ verdict_text verdict) }
{
    let text = verdict_text(alloc, &verdict)?;
    let status = status_of(verdict);
    Ok(Reply { status, text })
}

/// The reply where the check of a plan ends with a fault: to `check`, and to `sample` where its
/// search gave the plan.
pub(crate) fn fault_reply(
    alloc: Global,
    problem: &Problem,
    plan: &[Action],
    fault: CheckFault,
) -> Result<Reply, NoMemory>
    requires { IsCause (plain_problem problem.now) plan.now fault }
    ensures check { (d p q : List ℕ) → IfOk result (Replies (check d p q) (a_plan problem.now plan.now)) }
    ensures sample { (m : ℕ) → IsOutcome (sample_search m) (plain_problem problem.now) (outcome.Plan plan.now)
        → IfOk result (Replies (sample m) (a_problem problem.now)) }
{
    match fault {
        CheckFault::Range { after, note } => {
            let text = range_text(alloc, problem, &note, after, &[])?;
            let status = Status::Range;
            Ok(Reply { status, text })
        }
        CheckFault::NoMemory => Err(NoMemory),
    }
}

/// The reply on a plan of the task's problem.
fn task_reply(alloc: Global, task: &Task, plan: &[Action]) -> Result<Reply, NoMemory>
    requires named { Each (ActionIsNamed task.now.problem.names task.now.problem.domain.operators) plan.now }
    requires few { length plan.now ≤ 100000 }
    ensures { (d p q : List ℕ) → IfOk result (Replies (check d p q) (a_plan task.now.problem plan.now)) }
{
    match tl_check::check(alloc, task, plan) {
        Ok(verdict) => verdict_reply(alloc, verdict),
        Err(fault) => fault_reply(alloc, &task.problem, plan, fault),
    }
}

/// The verdict on a plan of a problem, or the operation past range that its check looks at.
pub(crate) fn reply(alloc: Global, problem: Problem, plan: &[Action]) -> Result<Reply, NoMemory>
    requires named { Each (ActionIsNamed problem.names problem.domain.operators) plan.now }
    requires few { length plan.now ≤ 100000 }
    ensures { (d p q : List ℕ) → IfOk result (Replies (check d p q) (a_plan problem plan.now)) }
{
    let task = Task::of(alloc, problem)?;
    let reply = task_reply(alloc, &task, plan);
    drop(task);
    reply
}
