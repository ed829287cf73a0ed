// The text of the verdict on a plan.
ghost use Rattle.std.specs.Prelude.{◌≡◌, IfOk};
ghost use Rattle.tl_text.specs.Verdicts.{verdict_text};

use std::alloc::Global;
use tl_check::Verdict;
use tl_line::{bytes_of, not_executable_text};
use tl_syntax::{Bytes, NoMemory};

/// The line of a verdict. An action is counted from 1.
pub fn verdict_text(alloc: Global, verdict: &Verdict) -> Result<Bytes, NoMemory>
    ensures { IfOk result (λ text. text ≡ verdict_text verdict.now) }
{
    match verdict {
        Verdict::Valid => bytes_of(alloc, "; valid\n"),
        Verdict::NotExecutable(number) => not_executable_text(alloc, *number),
        Verdict::GoalUnmet => bytes_of(alloc, "; goal unmet\n"),
        Verdict::Disobeys => bytes_of(alloc, "; disobeys\n"),
    }
}
