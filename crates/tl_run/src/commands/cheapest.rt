// The command `cheapest`: a search for a plan of the least cost.
ghost use Rattle.std.specs.Prelude.{◌≡◌, ◌≤◌, ◌<◌, ℕ, List, [], IfOk, IfErr};
ghost use Rattle.tl_cost.specs.CostTexts.{HasNamedPlan};
ghost use Rattle.tl_cost.specs.Outcomes.{CostOutcomeIsNamed, IsCheapestFault};
ghost use Rattle.tl_search.specs.NamedAnswers.{FaultIsNamed};
ghost use Rattle.tl_space.specs.Spaces.{task_of, problem_of, kept_of};
ghost use Rattle.tl_terms.specs.ProblemMeaning.{plain_problem};
ghost use Rattle.tl_run.specs.Cheapest.{cost_status, IsCostOutcome};
ghost use Rattle.tl_run.specs.Commands as commands;
ghost use Rattle.tl_run.specs.Inputs.{some_costs};
ghost use Rattle.tl_run.specs.Replies.{Replies};
ghost use Rattle.tl_run.specs.Searched.{HasNamedPath};

use super::searching::space_of;
use crate::reply::Reply;
use crate::status::Status;
use std::alloc::Global;
use std::marker::Brand;
use std::sync::ledger::{Blank, Ledger};
use tl_cost::{CostOutcome, Costs, cost_text};
use tl_search::SearchFault;
use tl_space::Space;
use tl_syntax::{NoMemory, Problem};
use tl_terms::Steps;
use tl_terms::laws::step_is_by_its_conditions;
use tl_text::range_text;

/// The status with an outcome.
fn status_of(outcome: &CostOutcome) -> Status
    ensures { result ≡ cost_status outcome.now }
{
    match outcome {
        CostOutcome::Plan(_, _) => Status::Yes,
        CostOutcome::NoPlan => Status::No,
        CostOutcome::Spent => Status::Spent,
    }
}

/// The reply with an outcome of the search.
fn outcome_reply(
    alloc: Global,
    problem: &Problem,
    costs: &Costs,
    nodes: u32,
    outcome: &CostOutcome,
) -> Result<Reply, NoMemory>
    requires right { IsCostOutcome nodes (plain_problem problem.now) costs.now outcome.now }
    requires named { HasNamedPlan problem.now.names problem.now.domain.operators outcome.now }
    ensures { (d p k : List ℕ) → IfOk result (Replies (commands.cheapest nodes d p k) (some_costs problem.now costs.now)) }
{
    let text = cost_text(alloc, problem, outcome, nodes)?;
    let status = status_of(outcome);
    Ok(Reply { status, text })
}

/// The reply where the search ends with a fault.
fn fault_reply(
    alloc: Global,
    problem: &Problem,
    costs: &Costs,
    nodes: u32,
    fault: SearchFault,
) -> Result<Reply, NoMemory>
    requires limits { nodes ≤ 100000 }
    requires cause { IsCheapestFault (plain_problem problem.now) costs.now nodes fault }
    requires named { HasNamedPath problem.now.names problem.now.domain.operators fault }
    ensures { (d p k : List ℕ) → IfOk result (Replies (commands.cheapest nodes d p k) (some_costs problem.now costs.now)) }
{
    match fault {
        SearchFault::Range { path, note } => {
            let after = path.len() as u32;
            let text = range_text(alloc, problem, &note, after, path.as_slice())?;
            let status = Status::Range;
            Ok(Reply { status, text })
        }
        SearchFault::NoMemory => Err(NoMemory),
    }
}

/// Searches a space in which nothing is kept, over a count of steps of its own.
fn searched<L: Ledger>(
    alloc: Global,
    space: &mut Space,
    costs: &Costs,
    nodes: u32,
    blank: Blank,
) -> Result<CostOutcome, SearchFault>
    requires empty { kept_of space.old ≡ [] }
    requires least { 1 ≤ nodes }
    requires most { nodes ≤ 100000 }
    requires name { blank.name ≡ L.name }
    requires parts { blank.parts ≡ L.parts }
    requires some { 0 < blank.parts }
    ensures task { task_of space.new ≡ task_of space.old }
    ensures outcome { IfOk result (IsCostOutcome nodes (problem_of space.old) costs.now) }
    ensures fault { IfErr result (IsCheapestFault (problem_of space.old) costs.now nodes) }
    ensures named { IfOk result (CostOutcomeIsNamed (task_of space.old)) }
    ensures path_named { IfErr result (FaultIsNamed (task_of space.old)) }
{
    let mut steps: Steps<L> = Steps::new(blank);
    tl_cost::cheapest(alloc, space, costs, nodes, &mut steps)
}

/// The reply to a search of a space in which nothing is kept.
fn space_reply(
    alloc: Global,
    space: &mut Space,
    costs: &Costs,
    nodes: u32,
) -> Result<Reply, NoMemory>
    requires empty { kept_of space.old ≡ [] }
    requires least { 1 ≤ nodes }
    requires most { nodes ≤ 100000 }
    ensures { (d p k : List ℕ)
        → IfOk result (Replies (commands.cheapest nodes d p k) (some_costs (task_of space.old).problem costs.now)) }
{
    step_is_by_its_conditions();
    let answer = searched::<Brand>(alloc, space, costs, nodes, Blank::new(1));
    let problem = &space.task().problem;
    match answer {
        Ok(outcome) => outcome_reply(alloc, problem, costs, nodes, &outcome),
        Err(fault) => fault_reply(alloc, problem, costs, nodes, fault),
    }
}

/// The outcome of a search for a plan of a problem that is cheapest by these costs, or the
/// operation past range at which the search ends.
pub(crate) fn reply(
    alloc: Global,
    problem: Problem,
    costs: &Costs,
    nodes: u32,
) -> Result<Reply, NoMemory>
    requires least { 1 ≤ nodes }
    requires most { nodes ≤ 100000 }
    ensures { (d p k : List ℕ) → IfOk result (Replies (commands.cheapest nodes d p k) (some_costs problem costs.now)) }
{
    let mut space = space_of(alloc, problem)?;
    let reply = space_reply(alloc, &mut space, costs, nodes);
    drop(space);
    reply
}
