// Lines that several answers have, as bytes.
ghost use Rattle.std.specs.Prelude.{◌≡◌, IfOk, OnOk};
ghost use Rattle.tl_syntax.specs.Lists.{Each};
ghost use Rattle.tl_line.specs.AnswerLines.{action_lines, not_executable_text, spent_text};
ghost use Rattle.tl_line.specs.NamedActions.{ActionIsNamed};
ghost use Rattle.tl_line.specs.Puts.{Puts};
ghost use Rattle.tl_line.specs.WritableActions.{ArgumentsFit};

use crate::write::put_action;
use std::alloc::Global;
use tl_syntax::{Action, Bytes, NoMemory, Problem};

/// The bytes of a text.
pub fn bytes_of(alloc: Global, text: &str) -> Result<Bytes, NoMemory>
    ensures { IfOk result (λ bytes. bytes ≡ text.now) }
{
    let mut bytes = Bytes::new(alloc);
    bytes.extend(text.as_bytes())?;
    Ok(bytes)
}

/// Puts a line for each action at the end.
/// The actions have to be those of the problem, with its names. Where memory runs out, the bytes
/// may have grown by a part of the lines.
#[tactic(auto, using(crate::proofs::Growth::lines))]
pub fn put_lines(problem: &Problem, actions: &[Action], out: &mut Bytes) -> Result<(), NoMemory>
    requires { Each (ActionIsNamed problem.now.names problem.now.domain.operators) actions.now }
    ensures text { Puts result out.old out.new (action_lines problem.now.names
        problem.now.domain.operators actions.now) }
    ensures fits { OnOk result (Each ArgumentsFit actions.now) }
{
    for action in actions {
        put_action(problem, action, out)?;
        out.extend(b"\n")?;
    }
    Ok(())
}

/// The line that says that a search met more than so many search nodes.
pub fn spent_text(alloc: Global, nodes: u32) -> Result<Bytes, NoMemory>
    ensures { IfOk result (λ text. text ≡ spent_text nodes) }
{
    let line = format!(in alloc; "; spent {nodes}\n")?;
    bytes_of(alloc, line.as_str())
}

/// The line that says that the action of this number, counted from 1, is not executable in its
/// turn.
pub fn not_executable_text(alloc: Global, number: u32) -> Result<Bytes, NoMemory>
    ensures { IfOk result (λ text. text ≡ not_executable_text number) }
{
    let line = format!(in alloc; "; not executable {number}\n")?;
    bytes_of(alloc, line.as_str())
}
