// The command `plan`: a search for a plan.
ghost use Rattle.std.specs.Prelude.{◌≡◌, ℕ, List, [], IfOk};
ghost use Rattle.tl_space.specs.Spaces.{task_of, kept_of};
ghost use Rattle.tl_terms.specs.ProblemMeaning.{plain_problem};
ghost use Rattle.tl_text.specs.Outcomes.{HasNamedPlan};
ghost use Rattle.tl_run.specs.Commands as commands;
ghost use Rattle.tl_run.specs.Inputs.{a_problem};
ghost use Rattle.tl_run.specs.Plan.{IsOutcome};
ghost use Rattle.tl_run.specs.Replies.{Replies};
ghost use Rattle.tl_run.specs.Searches.{IsWithinLimits};

use super::searching::{fault_reply, searched, space_of, status_of};
use crate::reply::Reply;
use crate::search::Search;
use std::alloc::Global;
use std::marker::Brand;
use std::sync::ledger::Blank;
use tl_search::Outcome;
use tl_space::Space;
use tl_syntax::{NoMemory, Problem};
use tl_terms::laws::step_is_by_its_conditions;
use tl_text::outcome_text;

/// The reply with an outcome of a search.
fn outcome_reply(
    alloc: Global,
    problem: &Problem,
    search: Search,
    outcome: &Outcome,
) -> Result<Reply, NoMemory>
    requires right { IsOutcome search (plain_problem problem.now) outcome.now }
    requires named { HasNamedPlan problem.now.names problem.now.domain.operators outcome.now }
    ensures { (d p : List ℕ) → IfOk result (Replies (commands.search search d p) (a_problem problem.now)) }
{
    let text = outcome_text(alloc, problem, outcome, search.within, search.nodes)?;
    let status = status_of(outcome);
    Ok(Reply { status, text })
}

/// The reply to a search of a space in which nothing is kept.
fn space_reply(alloc: Global, space: &mut Space, search: Search) -> Result<Reply, NoMemory>
    requires empty { kept_of space.old ≡ [] }
    requires limits { IsWithinLimits search }
    ensures { (d p : List ℕ) → IfOk result (Replies (commands.search search d p) (a_problem (task_of space.old).problem)) }
{
    step_is_by_its_conditions();
    let answer = searched::<Brand>(alloc, space, search, false, Blank::new(1));
    let problem = &space.task().problem;
    match answer {
        Ok(report) => outcome_reply(alloc, problem, search, &report.outcome),
        Err(fault) => fault_reply(alloc, problem, search, fault),
    }
}

/// The outcome of a search for a plan of a problem, or the operation past range at which the search
/// ends.
pub(crate) fn reply(alloc: Global, problem: Problem, search: Search) -> Result<Reply, NoMemory>
    requires { IsWithinLimits search }
    ensures { (d p : List ℕ) → IfOk result (Replies (commands.search search d p) (a_problem problem)) }
{
    let mut space = space_of(alloc, problem)?;
    let reply = space_reply(alloc, &mut space, search);
    drop(space);
    reply
}
