// The command `trace`: a search for a plan, with its events.
ghost use Rattle.std.specs.Prelude.{◌≡◌, ℕ, List, [], IfOk, OnOk};
ghost use Rattle.tl_space.specs.Spaces.{task_of, problem_of, kept_of};
ghost use Rattle.tl_text.specs.Outcomes.{PlanFits};
ghost use Rattle.tl_run.specs.Commands as commands;
ghost use Rattle.tl_run.specs.Inputs.{a_problem};
ghost use Rattle.tl_run.specs.Replies.{Replies};
ghost use Rattle.tl_run.specs.Searched.{HasNamedLines, IsTraceReport, report_text};
ghost use Rattle.tl_run.specs.Searches.{IsWithinLimits};

use super::searching::{fault_reply, searched, space_of, status_of};
use crate::reply::Reply;
use crate::search::Search;
use std::alloc::Global;
use std::marker::Brand;
use std::sync::ledger::Blank;
use tl_search::Report;
use tl_space::Space;
use tl_syntax::{Bytes, NoMemory, Problem};
use tl_terms::laws::step_is_by_its_conditions;
use tl_text::{outcome_text, trace_text};

/// The lines of the events of a search, and then those of its outcome.
fn report_text(
    alloc: Global,
    space: &Space,
    search: Search,
    report: &Report,
) -> Result<Bytes, NoMemory>
    requires { HasNamedLines (task_of space.now).problem (kept_of space.now) report.now }
    ensures text { IfOk result (λ text. text ≡ report_text (task_of space.now).problem search (kept_of space.now) report.now) }
    ensures fits { OnOk result (PlanFits report.now.outcome) }
{
    let mut text = trace_text(alloc, space, report.events.as_slice())?;
    let problem = &space.task().problem;
    let last = outcome_text(alloc, problem, &report.outcome, search.within, search.nodes)?;
    text.extend(last.as_slice())?;
    Ok(text)
}

/// The reply with the events and the outcome of a search.
fn report_reply(
    alloc: Global,
    space: &Space,
    search: Search,
    report: &Report,
) -> Result<Reply, NoMemory>
    requires right { IsTraceReport search (problem_of space.now) (kept_of space.now) report.now }
    requires named { HasNamedLines (task_of space.now).problem (kept_of space.now) report.now }
    ensures { (d p : List ℕ) → IfOk result (Replies (commands.trace search d p) (a_problem (task_of space.now).problem)) }
{
    let text = report_text(alloc, space, search, report)?;
    let status = status_of(&report.outcome);
    Ok(Reply { status, text })
}

/// The reply to a search of a space in which nothing is kept.
fn space_reply(alloc: Global, space: &mut Space, search: Search) -> Result<Reply, NoMemory>
    requires empty { kept_of space.old ≡ [] }
    requires limits { IsWithinLimits search }
    ensures { (d p : List ℕ) → IfOk result (Replies (commands.trace search d p) (a_problem (task_of space.old).problem)) }
{
    step_is_by_its_conditions();
    match searched::<Brand>(alloc, space, search, true, Blank::new(1)) {
        Ok(report) => report_reply(alloc, space, search, &report),
        Err(fault) => fault_reply(alloc, &space.task().problem, search, fault),
    }
}

/// The events and the outcome of a search for a plan of a problem, or the operation past range at
/// which the search ends.
pub(crate) fn reply(alloc: Global, problem: Problem, search: Search) -> Result<Reply, NoMemory>
    requires { IsWithinLimits search }
    ensures { (d p : List ℕ) → IfOk result (Replies (commands.trace search d p) (a_problem problem)) }
{
    let mut space = space_of(alloc, problem)?;
    let reply = space_reply(alloc, &mut space, search);
    drop(space);
    reply
}
