// The text of what a search answers.
ghost use Rattle.std.specs.Prelude.{◌≡◌, IfOk, OnOk};
ghost use Rattle.std.specs.String.{string_bytes};
ghost use Rattle.tl_syntax.specs.Lists.{Each};
ghost use Rattle.tl_line.specs.NamedActions.{ActionIsNamed};
ghost use Rattle.tl_line.specs.WritableActions.{ArgumentsFit};
ghost use Rattle.tl_text.specs.Outcomes.{HasNamedPlan, PlanFits, plan_line, plan_text, none_within_text, outcome_text};

use std::alloc::{AllocError, Global};
use tl_line::{bytes_of, put_lines, spent_text};
use tl_search::Outcome;
use tl_syntax::{Action, Bytes, NoMemory, Problem};

/// The line that says of how many actions a plan is.
fn plan_line(alloc: Global, actions: usize) -> Result<String, AllocError>
    ensures { IfOk result (λ line. string_bytes line ≡ plan_line actions) }
{
    format!(in alloc; "; plan of {actions} actions\n")
}

/// The lines of a plan.
fn plan_text(alloc: Global, problem: &Problem, plan: &[Action]) -> Result<Bytes, NoMemory>
    requires { Each (ActionIsNamed problem.now.names problem.now.domain.operators) plan.now }
    ensures text { IfOk result
        (λ text. text ≡ plan_text problem.now.names problem.now.domain.operators plan.now) }
    ensures fits { OnOk result (Each ArgumentsFit plan.now) }
{
    let first = plan_line(alloc, plan.len())?;
    let mut text = bytes_of(alloc, first.as_str())?;
    put_lines(problem, plan, &mut text)?;
    Ok(text)
}

/// The line that says that there is no plan of at most so many actions.
fn none_within_text(alloc: Global, within: u32) -> Result<Bytes, NoMemory>
    ensures { IfOk result (λ text. text ≡ none_within_text within) }
{
    let line = format!(in alloc; "; none within {within}\n")?;
    bytes_of(alloc, line.as_str())
}

/// The lines of what a search answers for plans of at most `within` actions among at most `nodes`
/// search nodes: a plan has a line for each of its actions, every other answer is one line. The
/// actions of a plan have to be those of the problem, with its names.
pub fn outcome_text(
    alloc: Global,
    problem: &Problem,
    outcome: &Outcome,
    within: u32,
    nodes: u32,
) -> Result<Bytes, NoMemory>
    requires { HasNamedPlan problem.now.names problem.now.domain.operators outcome.now }
    ensures text { IfOk result
        (λ text. text ≡ outcome_text problem.now.names problem.now.domain.operators
        within nodes outcome.now) }
    ensures fits { OnOk result (PlanFits outcome.now) }
{
    match outcome {
        Outcome::Plan(plan) => plan_text(alloc, problem, plan.as_slice()),
        Outcome::NoPlan => bytes_of(alloc, "; none\n"),
        Outcome::NoneWithin => none_within_text(alloc, within),
        Outcome::Spent => spent_text(alloc, nodes),
    }
}
