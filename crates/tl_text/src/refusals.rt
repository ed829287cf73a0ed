// The text of the answer for a file that is refused.
ghost use Rattle.std.specs.Prelude.{◌≡◌, IfOk};
ghost use Rattle.tl_text.specs.Refusals.{refused_text};

use std::alloc::Global;
use tl_line::bytes_of;
use tl_syntax::{Bytes, NoMemory};

/// The line for a file that is refused: `file` is its place among the words, from 1 on, `broken`
/// the number of the rule, and `at` the offset in bytes.
pub fn refused_text(alloc: Global, file: u8, broken: u8, at: u32) -> Result<Bytes, NoMemory>
    ensures { IfOk result (λ text. text ≡ refused_text file broken at) }
{
    let line = format!(in alloc; "; refused file {file} rule {broken} at {at}\n")?;
    bytes_of(alloc, line.as_str())
}
