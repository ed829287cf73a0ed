// The text of what a search for a cheapest plan answers.
ghost use Rattle.std.specs.Prelude.{◌≡◌, IfOk};
ghost use Rattle.std.specs.String.{string_bytes};
ghost use Rattle.tl_syntax.specs.Lists.{Each};
ghost use Rattle.tl_line.specs.NamedActions.{ActionIsNamed};
ghost use Rattle.tl_cost.specs.CostTexts.{cheapest_line, cost_text, cheapest_plan_text, HasNamedPlan};

use crate::outcome::CostOutcome;
use std::alloc::{AllocError, Global};
use tl_line::{bytes_of, put_lines, spent_text};
use tl_syntax::{Action, Bytes, NoMemory, Problem};

/// The line that says of how many actions a plan is, and what it costs.
fn cheapest_line(alloc: Global, actions: usize, cost: u64) -> Result<String, AllocError>
    ensures { IfOk result (λ line. string_bytes line ≡ cheapest_line actions cost) }
{
    format!(in alloc; "; cheapest plan of {actions} actions costs {cost}\n")
}

/// The lines of a plan and its cost.
fn plan_text(
    alloc: Global,
    problem: &Problem,
    plan: &[Action],
    cost: u64,
) -> Result<Bytes, NoMemory>
    requires { Each (ActionIsNamed problem.now.names problem.now.domain.operators) plan.now }
    ensures { IfOk result
        (λ text. text ≡ cheapest_plan_text problem.now.names problem.now.domain.operators
        plan.now cost) }
{
    let first = cheapest_line(alloc, plan.len(), cost)?;
    let mut text = bytes_of(alloc, first.as_str())?;
    put_lines(problem, plan, &mut text)?;
    Ok(text)
}

/// The lines of what a search for a cheapest plan among at most `nodes` search nodes answers: of a
/// plan its number of actions and its cost, and then a line for each action; every other answer is
/// one line. The actions of a plan have to be those of the problem, with its names.
pub fn cost_text(
    alloc: Global,
    problem: &Problem,
    outcome: &CostOutcome,
    nodes: u32,
) -> Result<Bytes, NoMemory>
    requires { HasNamedPlan problem.now.names problem.now.domain.operators outcome.now }
    ensures { IfOk result (λ text. text
        ≡ cost_text problem.now.names problem.now.domain.operators nodes outcome.now) }
{
    match outcome {
        CostOutcome::Plan(plan, cost) => plan_text(alloc, problem, plan.as_slice(), *cost),
        CostOutcome::NoPlan => bytes_of(alloc, "; none\n"),
        CostOutcome::Spent => spent_text(alloc, nodes),
    }
}
