// The command `prove-none`: a search for a plan, and a proof that there is none.
ghost use Rattle.std.specs.Prelude.{◌≡◌, ℕ, List, [], IfOk};
ghost use Rattle.tl_space.specs.Spaces.{task_of, problem_of, kept_of};
ghost use Rattle.tl_terms.specs.ProblemMeaning.{plain_problem};
ghost use Rattle.tl_text.specs.Outcomes.{HasNamedPlan};
ghost use Rattle.tl_run.specs.Commands as commands;
ghost use Rattle.tl_run.specs.Inputs.{a_problem};
ghost use Rattle.tl_run.specs.Plan.{IsOutcome};
ghost use Rattle.tl_run.specs.ProveNone.{LeavesNoProof, unproved_status};
ghost use Rattle.tl_run.specs.Replies.{Replies};
ghost use Rattle.tl_run.specs.Searched.{FindsNone, HasNamedLines, IsTraceReport};
ghost use Rattle.tl_run.specs.Searches.{IsWithinLimits};

use super::searching::{fault_reply, searched, space_of};
use crate::reply::Reply;
use crate::search::{Mode, Search};
use crate::status::Status;
use std::alloc::Global;
use std::marker::Brand;
use std::sync::ledger::Blank;
use tl_cert::{certificate, proof_text};
use tl_search::{Outcome, Report};
use tl_space::Space;
use tl_syntax::{NoMemory, Problem};
use tl_terms::laws::step_is_by_its_conditions;
use tl_text::outcome_text;

/// The status with an outcome that leaves no proof.
fn status_of(outcome: &Outcome) -> Status
    ensures { result ≡ unproved_status outcome.now }
{
    match outcome {
        Outcome::Plan(_) => Status::No,
        Outcome::NoPlan => Status::No,
        Outcome::NoneWithin => Status::No,
        Outcome::Spent => Status::Spent,
    }
}

/// The reply with an outcome that leaves no proof.
fn outcome_reply(
    alloc: Global,
    problem: &Problem,
    search: Search,
    outcome: &Outcome,
) -> Result<Reply, NoMemory>
    requires right { IsOutcome search (plain_problem problem.now) outcome.now }
    requires named { HasNamedPlan problem.now.names problem.now.domain.operators outcome.now }
    requires leaves { LeavesNoProof outcome.now }
    ensures { (d p : List ℕ) → IfOk result (Replies (commands.prove_none search d p) (a_problem problem.now)) }
{
    let text = outcome_text(alloc, problem, outcome, search.within, search.nodes)?;
    let status = status_of(outcome);
    Ok(Reply { status, text })
}

/// The reply with the proof that a search leaves which found that there is no plan.
fn proof_reply(
    alloc: Global,
    space: &Space,
    search: Search,
    report: &Report,
) -> Result<Reply, NoMemory>
    requires breadth { search.mode ≡ Mode.Breadth }
    requires limits { IsWithinLimits search }
    requires right { IsTraceReport search (problem_of space.now) (kept_of space.now) report.now }
    requires named { HasNamedLines (task_of space.now).problem (kept_of space.now) report.now }
    requires none { FindsNone report.now.outcome }
    ensures { (d p : List ℕ) → IfOk result (Replies (commands.prove_none search d p) (a_problem (task_of space.now).problem)) }
{
    let proof = certificate(alloc, space, report, search.within)?;
    let text = proof_text(alloc, &space.task().problem, &proof)?;
    let status = Status::Yes;
    Ok(Reply { status, text })
}

/// The reply with what a search ended with.
fn report_reply(
    alloc: Global,
    space: &Space,
    search: Search,
    report: &Report,
) -> Result<Reply, NoMemory>
    requires breadth { search.mode ≡ Mode.Breadth }
    requires limits { IsWithinLimits search }
    requires right { IsTraceReport search (problem_of space.now) (kept_of space.now) report.now }
    requires named { HasNamedLines (task_of space.now).problem (kept_of space.now) report.now }
    ensures { (d p : List ℕ) → IfOk result (Replies (commands.prove_none search d p) (a_problem (task_of space.now).problem)) }
{
    let problem = &space.task().problem;
    match &report.outcome {
        Outcome::Plan(_) => outcome_reply(alloc, problem, search, &report.outcome),
        Outcome::NoPlan => proof_reply(alloc, space, search, report),
        Outcome::NoneWithin => proof_reply(alloc, space, search, report),
        Outcome::Spent => outcome_reply(alloc, problem, search, &report.outcome),
    }
}

/// The reply to a search of a space in which nothing is kept.
fn space_reply(alloc: Global, space: &mut Space, search: Search) -> Result<Reply, NoMemory>
    requires empty { kept_of space.old ≡ [] }
    requires breadth { search.mode ≡ Mode.Breadth }
    requires limits { IsWithinLimits search }
    ensures { (d p : List ℕ) → IfOk result (Replies (commands.prove_none search d p) (a_problem (task_of space.old).problem)) }
{
    step_is_by_its_conditions();
    match searched::<Brand>(alloc, space, search, true, Blank::new(1)) {
        Ok(report) => report_reply(alloc, space, search, &report),
        Err(fault) => fault_reply(alloc, &space.task().problem, search, fault),
    }
}

/// The proof that a problem has no plan, or the outcome of a search that leaves none, or the
/// operation past range at which the search ends.
pub(crate) fn reply(alloc: Global, problem: Problem, search: Search) -> Result<Reply, NoMemory>
    requires breadth { search.mode ≡ Mode.Breadth }
    requires limits { IsWithinLimits search }
    ensures { (d p : List ℕ) → IfOk result (Replies (commands.prove_none search d p) (a_problem problem)) }
{
    let mut space = space_of(alloc, problem)?;
    let reply = space_reply(alloc, &mut space, search);
    drop(space);
    reply
}
