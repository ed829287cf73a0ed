// Whether an operator whose bounds are true can be applied, and what it then changes.
ghost use Rattle.std.specs.Prelude.{◌≡◌};
ghost use Rattle.tl_action.specs.Prepared.{HaveValues};
ghost use Rattle.tl_action.specs.Sure.{are_sure};
ghost use Rattle.tl_action.specs.UnderFrames.{OperatorIsKept, KeepsParameters, AnswersPrepared, ChangesAreCollected, ChangesArePrepared};
ghost use Rattle.tl_eval.specs.Frames.{assignment_in};
ghost use Rattle.tl_syntax.specs.FreeVariables.{slots_of};
ghost use Rattle.tl_syntax.specs.TreeOfEffect.{tree_of_effects};

use crate::changes::Changes;
use crate::clash::agree;
use crate::collect::collect_all;
use crate::here::Here;
use tl_eval::{Env, EvalFault, state};
use tl_syntax::Operator;

/// What the operator changes, with its parameters' values in the frame, which keeps them: None
/// where its precondition is false, an instance of its effects has an undefined part, or two set
/// one place to different values. The bounds are not looked at.
pub(crate) fn prepared(
    here: &Here,
    env: &mut Env,
    operator: &Operator,
) -> Result<Option<Changes>, EvalFault>
    requires { OperatorIsKept here.now operator.now }
    ensures changes { ChangesArePrepared here.now operator.now env.old result }
    ensures frame { KeepsParameters operator.now env.old env.new }
{
    match state(here.task, here.world, env, &operator.pre) {
        Ok(true) => collected(here, env, operator),
        Ok(false) => Ok(None),
        Err(note) => Err(EvalFault::Range(note)),
    }
}

/// Whether the operator can be applied, with its parameters' values in the frame. Where its effects
/// are `sure`, none can fail, and they are not looked at.
/// The bounds are not looked at. The parameters keep their values in the frame.
pub(crate) fn is_prepared(
    here: &Here,
    env: &mut Env,
    operator: &Operator,
    sure: bool,
) -> Result<bool, EvalFault>
    requires keeps { OperatorIsKept here.now operator.now }
    requires values { HaveValues (slots_of operator.now.params) (assignment_in env.old) }
    requires sure { sure ≡ are_sure (tree_of_effects operator.now.effects) }
    ensures answer { AnswersPrepared here.now operator.now env.old result }
    ensures frame { KeepsParameters operator.now env.old env.new }
{
    if sure {
        return match state(here.task, here.world, env, &operator.pre) {
            Ok(truth) => Ok(truth),
            Err(note) => Err(EvalFault::Range(note)),
        };
    }
    match prepared(here, env, operator) {
        Ok(Some(_)) => Ok(true),
        Ok(None) => Ok(false),
        Err(fault) => Err(fault),
    }
}

/// What the operator's effects change: None where an instance has an undefined part, or two set one
/// place to different values.
fn collected(here: &Here, env: &mut Env, operator: &Operator) -> Result<Option<Changes>, EvalFault>
    requires { OperatorIsKept here.now operator.now }
    ensures changes { ChangesAreCollected here.now operator.now env.old result }
    ensures frame { KeepsParameters operator.now env.old env.new }
{
    let mut changes = Changes::new(here.alloc);
    match collect_all(here, env, &operator.effects, &mut changes) {
        Ok(true) => {
            if agree(here.alloc, changes.sets.as_slice())? {
                Ok(Some(changes))
            } else {
                Ok(None)
            }
        }
        Ok(false) => Ok(None),
        Err(fault) => Err(fault),
    }
}
