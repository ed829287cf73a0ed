// The line of a verdict.
ghost use Rattle.std.specs.Prelude.{◌≡◌, IfOk};
ghost use Rattle.tl_lasso.specs.LoopTexts.{loop_text};

use crate::verdict::LoopVerdict;
use std::alloc::Global;
use tl_line::{bytes_of, not_executable_text};
use tl_syntax::{Bytes, NoMemory};

/// The line of a verdict on a plan with a repeated part. An action is counted from 1, through both
/// parts. It fails for want of memory alone.
pub fn loop_text(alloc: Global, verdict: &LoopVerdict) -> Result<Bytes, NoMemory>
    ensures { IfOk result (λ text. text ≡ loop_text verdict.now) }
{
    match verdict {
        LoopVerdict::Valid => bytes_of(alloc, "; valid for ever\n"),
        LoopVerdict::NotExecutable(number) => not_executable_text(alloc, *number),
        LoopVerdict::NotClosed => bytes_of(alloc, "; not closed\n"),
        LoopVerdict::GoalUnmet => bytes_of(alloc, "; goal unmet\n"),
        LoopVerdict::Disobeys => bytes_of(alloc, "; disobeys\n"),
    }
}
