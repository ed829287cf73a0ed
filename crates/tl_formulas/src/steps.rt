// Numbers in files.
ghost use Rattle.std.specs.Prelude.{ℕ};
ghost use Rattle.tl_sexpr.specs.Tree.{integer};
ghost use Rattle.tl_formulas.specs.Formulas.{steps_breaks};
ghost use Rattle.tl_formulas.specs.MeaningOfFormulas.{steps_meant};
ghost use Rattle.tl_rules.specs.Reads.{Reads};

use tl_rules::{FormFault, Rule, breaks};

/// The number of steps of `within` or `for`, from 0 to 100,000.
pub(crate) fn steps(number: i64, at: u32) -> Result<u32, FormFault>
    ensures { Reads (λ (x : ℕ). x) result (steps_breaks (integer number at))
        (steps_meant (integer number at)) }
{
    if number < 0 || number > 100_000 {
        return Err(breaks(Rule::Limit, at));
    }
    Ok(number as u32)
}
