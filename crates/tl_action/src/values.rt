// The values of terms and of variables.
ghost use Rattle.std.specs.Prelude.{◌≡◌, IfOk};
ghost use Rattle.tl_action.specs.UnderFrames.{row_here, TermsFitHere, AnswersValues};

use crate::here::Here;
use tl_eval::{Env, EvalFault, term};
use tl_syntax::{NoMemory, Terms, Values, Var};

/// The values of terms in a world, under the frame's values, where all are defined; or a fault. The
/// frame stays as it was.
/// The terms are evaluated from left to right up to the first undefined one.
#[inline(always)]
pub(crate) fn values_of(
    here: &Here,
    env: &mut Env,
    terms: &Terms,
) -> Result<Option<Values>, EvalFault>
    requires { TermsFitHere here.now terms.now }
    ensures values { AnswersValues here.now env.old terms.now result }
    ensures frame { env.new ≡ env.old }
{
    let mut values = Values::new(here.alloc);
    for one in terms.as_slice().iter() {
        match term(here.task, here.world, env, one) {
            Ok(Some(value)) => values.push(value)?,
            Ok(None) => return Ok(None),
            Err(note) => return Err(EvalFault::Range(note)),
        }
    }
    Ok(Some(values))
}

/// The values of variables in the frame, in their order, where all have one. It fails for want of
/// memory alone.
pub(crate) fn row_of(here: &Here, env: &Env, vars: &[Var]) -> Result<Option<Values>, NoMemory>
    ensures { IfOk result (λ row. row ≡ row_here here.now env.now vars.now) }
{
    let mut row = Values::new(here.alloc);
    for var in vars {
        match env.value(var.slot) {
            Some(value) => row.push(value)?,
            None => return Ok(None),
        }
    }
    Ok(Some(row))
}
