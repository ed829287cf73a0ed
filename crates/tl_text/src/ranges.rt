// The text of the answer for an operation that is past range.
ghost use Rattle.std.specs.Prelude.{◌≡◌, IfOk};
ghost use Rattle.std.specs.String.{string_bytes};
ghost use Rattle.tl_syntax.specs.Lists.{Each};
ghost use Rattle.tl_line.specs.NamedActions.{ActionIsNamed};
ghost use Rattle.tl_text.specs.Ranges.{op_text, operation_line, after_line, range_text};

use std::alloc::{AllocError, Global};
use tl_eval::RangeNote;
use tl_line::{bytes_of, put_lines};
use tl_syntax::{Action, Bytes, NoMemory, Op, Problem};

/// The sign of an operation.
fn sign(op: Op) -> &'static str
    ensures { result.now ≡ op_text op }
{
    match op {
        Op::Plus => "+",
        Op::Minus => "-",
        Op::Times => "*",
    }
}

/// The line of the operation.
fn operation(alloc: Global, note: &RangeNote) -> Result<String, AllocError>
    ensures { IfOk result (λ line. string_bytes line ≡ operation_line note.now) }
{
    let at = note.at;
    let left = note.left;
    let op = sign(note.op);
    let right = note.right;
    format!(in alloc; "; range at {at}: {left} {op} {right}\n")
}

/// The line that says after how many actions.
fn actions_before(alloc: Global, after: u32) -> Result<String, AllocError>
    ensures { IfOk result (λ line. string_bytes line ≡ after_line after) }
{
    format!(in alloc; "; after {after} actions\n")
}

/// The lines for an operation that is past range after `after` actions, and then a line for each
/// action of the path.
/// The actions of the path have to be those of the problem, with its names.
pub fn range_text(
    alloc: Global,
    problem: &Problem,
    note: &RangeNote,
    after: u32,
    path: &[Action],
) -> Result<Bytes, NoMemory>
    requires { Each (ActionIsNamed problem.now.names problem.now.domain.operators) path.now }
    ensures { IfOk result
        (λ text. text ≡ range_text problem.now.names problem.now.domain.operators
        note.now after path.now) }
{
    let first = operation(alloc, note)?;
    let mut text = bytes_of(alloc, first.as_str())?;
    let second = actions_before(alloc, after)?;
    text.extend(second.as_bytes())?;
    put_lines(problem, path, &mut text)?;
    Ok(text)
}
