// The step of an action.
ghost use Rattle.std.specs.Prelude.{◌≡◌, ◌+◌, IfOk, IfErr};
ghost use Rattle.tl_action.specs.StepsHere.{HasOperatorHere, AreChangesHere, IsFaultHere};
ghost use Rattle.tl_action.specs.StepsHere.{IsStepHere, LeaveNamedHere, StaysNamedHere};

use crate::bounds::bounds_hold;
use crate::changes::Changes;
use crate::here::Here;
use crate::prepared::prepared;
use std::sync::ledger::Ledger;
use tl_eval::{Env, EvalFault};
use tl_syntax::Action;
use tl_terms::Steps;
use tl_world::World;

/// What the action changes: None exactly where it is not executable in the world. Bounds,
/// precondition and effects are read there in this order, up to the first that decides (Pednault
/// 1989). Each call counts one step, and leaves the frame with values of its own.
pub fn changes_if_executable<L: Ledger>(
    here: &Here,
    env: &mut Env,
    a: &Action,
    steps: &mut Steps<L>,
) -> Result<Option<Changes>, EvalFault>
    requires operator { HasOperatorHere here.now a.now }
    ensures changes { IfOk result (AreChangesHere here.now a.now) }
    ensures named { IfOk result (LeaveNamedHere here.now a.now) }
    ensures cause { IfErr result (IsFaultHere here.now a.now) }
    ensures ticks { steps.new ≡ steps.old + 1 }
{
    steps.tick();
    let operator = &here.task.problem.domain.operators.as_slice()[a.op as usize];
    env.put_values(operator.params.as_slice(), a.args.as_slice());
    if !bounds_hold(here, env, operator.bounds.as_slice()) {
        return Ok(None);
    }
    prepared(here, env, operator)
}

/// The world after the action: None exactly where the action is not executable in the world, which
/// stays as it is.
///
/// It is what `changes_if_executable` makes, with its range fault, its step and its frame.
pub fn apply<L: Ledger>(
    here: &Here,
    env: &mut Env,
    a: &Action,
    steps: &mut Steps<L>,
) -> Result<Option<World>, EvalFault>
    requires operator { HasOperatorHere here.now a.now }
    ensures world { IfOk result (IsStepHere here.now a.now) }
    ensures named { IfOk result (StaysNamedHere here.now a.now) }
    ensures cause { IfErr result (IsFaultHere here.now a.now) }
    ensures ticks { steps.new ≡ steps.old + 1 }
{
    match changes_if_executable(here, env, a, steps) {
        Ok(Some(changes)) => {
            let next = changes.world_after(here.alloc, here.world)?;
            Ok(Some(next))
        }
        Ok(None) => Ok(None),
        Err(fault) => Err(fault),
    }
}
