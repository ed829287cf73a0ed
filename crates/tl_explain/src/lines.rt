// The lines of states and actions.
ghost use Rattle.std.specs.Prelude.{◌≡◌, ◌++◌, ◌<◌, length, IfOk, codes};
ghost use Rattle.std.specs.Fmt.{decimal};
ghost use Rattle.std.specs.String.{string_bytes};
ghost use Rattle.tl_syntax.specs.Named.{IsNamed};
ghost use Rattle.tl_line.specs.NamedActions.{ActionIsNamed};
ghost use Rattle.tl_nodes.specs.NodeTrees.{tree_at};
ghost use Rattle.tl_nodes.specs.Numbers.{trees};
ghost use Rattle.tl_explain.specs.Explain.{action_line, state_line, stopped_line};

use std::alloc::{AllocError, Global};
use tl_label::label_text;
use tl_line::put_action;
use tl_nodes::Nodes;
use tl_syntax::{Action, Bytes, NoMemory, Problem};

/// The beginning of the line of a state.
fn state_number(alloc: Global, number: u32) -> Result<String, AllocError>
    ensures { IfOk result (λ text. string_bytes text ≡ codes "; state " ++ (decimal number ++ codes ": ")) }
{
    format!(in alloc; "; state {number}: ")
}

/// The line of the state after so many actions, in which the formula of this number is the
/// residual.
pub(crate) fn state_line(
    alloc: Global,
    problem: &Problem,
    nodes: &Nodes,
    label: usize,
    number: u32,
) -> Result<Bytes, NoMemory>
    requires label { label < length (trees nodes.now) }
    requires named { IsNamed (length problem.now.names) (tree_at (trees nodes.now) label) }
    ensures { IfOk result (λ line. line ≡ state_line problem.now number (tree_at (trees nodes.now) label)) }
{
    let start = state_number(alloc, number)?;
    let text = label_text(alloc, problem, nodes, label)?;
    let mut line = Bytes::new(alloc);
    line.extend(start.as_bytes())?;
    line.extend(text.as_slice())?;
    line.extend(b"\n")?;
    Ok(line)
}

/// The line of an action.
pub(crate) fn action_line(alloc: Global, problem: &Problem, a: &Action) -> Result<Bytes, NoMemory>
    requires { ActionIsNamed problem.now.names problem.now.domain.operators a.now }
    ensures { IfOk result (λ line. line ≡ action_line problem.now a.now) }
{
    let mut line = Bytes::new(alloc);
    put_action(problem, a, &mut line)?;
    line.extend(b"\n")?;
    Ok(line)
}

/// The line that says that the action of this number, counted from 1, has no step.
pub(crate) fn stopped_line(alloc: Global, number: u32) -> Result<String, AllocError>
    ensures { IfOk result (λ line. string_bytes line ≡ stopped_line number) }
{
    format!(in alloc; "; not executable {number}\n")
}
