// Whether bounds are true.
ghost use Rattle.std.specs.Prelude.{◌≡◌};
ghost use Rattle.tl_action.specs.UnderFrames.{bounds_true, BoundsFitHere};

use crate::here::Here;
use tl_eval::{Env, bound_holds};
use tl_syntax::Bound;

/// Whether all bounds are true in the world under the frame's values. It takes no memory.
pub(crate) fn bounds_hold(here: &Here, env: &Env, bounds: &[Bound]) -> bool
    requires { BoundsFitHere here.now bounds.now }
    ensures { result ≡ bounds_true here.now env.now bounds.now }
{
    for bound in bounds {
        if !bound_holds(here.task, here.world, env, bound) {
            return false;
        }
    }
    true
}
