// The truth of bounds.
ghost use Rattle.std.specs.Prelude.{◌≡◌};
ghost use Rattle.tl_eval.specs.Frames.{assignment_in};
ghost use Rattle.tl_eval.specs.Reading.{situation_in};
ghost use Rattle.tl_syntax.specs.Fits.{BoundFits};
ghost use Rattle.tl_syntax.specs.Signature.{signature_of};
ghost use Rattle.tl_terms.specs.Bounds.{bound_true};

use crate::Env;
use crate::basic_truth::{fact_true, place_true};
use tl_syntax::Bound;
use tl_world::{Task, World};

/// Whether the bound is true in the world under the values of the caller's frame; a bound with a
/// variable that has no value there is false. It is one look-up by halves, and takes no memory.
pub fn bound_holds(task: &Task, w: &World, env: &Env, b: &Bound) -> bool
    requires { BoundFits (signature_of task.now.problem.domain) b.now }
    ensures { result ≡ bound_true (situation_in task.now w.now) (assignment_in env.now) b.now }
{
    let frame = env.frame();
    match b {
        Bound::Fact(pred, args) => fact_true(w, frame, *pred, args.as_slice()),
        Bound::Place(fun, args, value) => place_true(w, frame, *fun, args.as_slice(), value),
        Bound::GoalFact(pred, args) => fact_true(&task.goal, frame, *pred, args.as_slice()),
        Bound::GoalPlace(fun, args, value) => {
            place_true(&task.goal, frame, *fun, args.as_slice(), value)
        }
        Bound::GoalNot(pred, args) => fact_true(&task.avoid, frame, *pred, args.as_slice()),
    }
}
